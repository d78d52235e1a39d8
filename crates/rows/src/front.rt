// The fronts of two rows change places: eight numbers of short rows, thirty-two at a time of others, where there is room.
ghost use Rattle.std.specs.Prelude.{◌≡◌, ◌+◌, ◌*◌, ◌≤◌, length};
ghost use Rattle.areas.specs.Stretch.{exchanged};
ghost use Rattle.rows.specs.Front.{Exchanged};

// Exchanges the four numbers from index `p` on with those from index `q` on: all are read before one is written, so they move as vectors.
// By hand: over two arrays and std's `copy_from_slice` sparse elimination took up to 2.4 times the instructions, by `areas::exchange` 15 to 35 percent more.
fn exchange_four(numbers: &mut [u32], p: usize, q: usize)
    requires { (p + 4 ≤ q) × (q + 4 ≤ length numbers.old) }
    ensures { numbers.new ≡ exchanged p q 4 numbers.old }
{
    let a = numbers[p];
    let b = numbers[p + 1];
    let c = numbers[p + 2];
    let d = numbers[p + 3];
    let e = numbers[q];
    let f = numbers[q + 1];
    let g = numbers[q + 2];
    let h = numbers[q + 3];
    numbers[q] = a;
    numbers[q + 1] = b;
    numbers[q + 2] = c;
    numbers[q + 3] = d;
    numbers[p] = e;
    numbers[p + 1] = f;
    numbers[p + 2] = g;
    numbers[p + 3] = h;
}

// Exchanges N times four numbers.
fn exchange_fours<const N: usize>(numbers: &mut [u32], p: usize, q: usize)
    requires { (p + 4 * N ≤ q) × (q + 4 * N ≤ length numbers.old) }
    ensures { numbers.new ≡ exchanged p q (4 * N) numbers.old }
{
    for k in 0..N {
        exchange_four(numbers, p + 4 * k, q + 4 * k);
    }
}

// Exchanges thirty-two numbers where `room` allows, one otherwise, and returns how many.
fn exchange_some(numbers: &mut [u32], p: usize, q: usize, room: usize) -> usize
    requires { (1 ≤ room) × (p + room ≤ q) × (q + room ≤ length numbers.old) }
    ensures { Exchanged numbers.old p q 1 room numbers.new result }
{
    if room < 32 {
        // Not the library's `swap`: it tells its indices apart first, 14 percent more instructions where all numbers go one by one.
        areas::exchange(numbers, p, q, 1);
        return 1;
    }
    exchange_fours::<8>(numbers, p, q);
    32
}

// Exchanges at least the first `k` of the `n` numbers from `p` on with those from `q` on, and returns how many.
pub fn exchange_front(numbers: &mut [u32], p: usize, q: usize, k: usize, n: usize) -> usize
    requires { (k ≤ n) × (p + n ≤ q) × (q + n ≤ length numbers.old) }
    ensures { Exchanged numbers.old p q k n numbers.new result }
{
    if k <= 8 && 8 <= n {
        exchange_fours::<2>(numbers, p, q);
        return 8;
    }
    let mut i = 0;
    // No `for`: each exchange says how far it went.
    while i < k {
        i += exchange_some(numbers, p + i, q + i, n - i);
    }
    i
}
