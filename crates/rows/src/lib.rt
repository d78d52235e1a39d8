// A system's rows in lent memory: m rows of n numbers, a scratch row, m lengths; the constants in the words.
// The two areas, n and m stay arguments: with one struct of them, lent by `&mut`, sparse elimination takes 7 to 22 percent more instructions.
#![tactic(auto)]

ghost use Rattle.std.specs.Prelude.{◌≡◌, ◌+◌, ◌*◌, ◌^◌, ◌≤◌, ◌<◌, length, set};
ghost use Rattle.areas.specs.Stretch.{cleared, zeroed};
ghost use Rattle.answers.specs.Sizes.{max_variables, row_numbers, row_words};
ghost use Rattle.gf2.specs.Equation.{eqn, Rising};
ghost use Rattle.gf2.specs.Common.{common};
ghost use Rattle.rows.specs.Padding.{PaddedRows};
ghost use Rattle.rows.specs.Picture.{Held, Became, rows_of, row_at, swapped, added};

mod counted;
mod front;

pub use counted::{Counted, Unsolvable};

// The room becomes zeros, which are `m` rows without variables; the remainder is untouched.
pub fn clear(numbers: &mut [u32], words: &mut [u64], n: usize, m: usize)
    requires { (row_numbers n m ≤ length numbers.old) × (row_words m ≤ length words.old) }
    ensures numbers_after { numbers.new ≡ cleared (row_numbers n m) numbers.old }
    ensures words_after { words.new ≡ cleared (row_words m) words.old }
{
    areas::fill(numbers, 0, m * n + n + m, 0);
    areas::fill(words, 0, m, 0);
}

// The `m` rows from index `at` on become zeros: of each only as many numbers are written as its length, from index `lengths` on, says.
pub fn empty_rows(numbers: &mut [u32], at: usize, lengths: usize, n: usize, m: usize)
    requires { PaddedRows at lengths n m numbers.old }
    ensures { numbers.new ≡ zeroed at (at + m * n) numbers.old }
{
    for i in 0..m {
        let row = at + i * n;
        let len = numbers[lengths + i] as usize;
        areas::fill(numbers, row, row + len, 0);
    }
}

// The room of areas that hold rows becomes zeros, as by `clear`: no more is written than the rows hold.
pub fn empty(numbers: &mut [u32], words: &mut [u64], n: usize, m: usize)
    requires { Held n m numbers.old words.old }
    ensures numbers_after { numbers.new ≡ cleared (row_numbers n m) numbers.old }
    ensures words_after { words.new ≡ cleared (row_words m) words.old }
{
    let lens = m * n + n;
    empty_rows(numbers, 0, lens, n, m);
    areas::fill(numbers, lens, lens + m, 0);
    areas::fill(words, 0, m, 0);
}

// Row `i`, which has no variables, becomes the equation of these variables and this constant.
pub fn store_row(
    numbers: &mut [u32],
    words: &mut [u64],
    n: usize,
    m: usize,
    i: usize,
    vars: &[u32],
    c: u64,
)
    requires held { Held n m numbers.old words.old × (i < m) × (n ≤ max_variables) }
    requires i_len { length (row_at (rows_of n m numbers.old words.old) i).vars ≡ 0 }
    requires rising { Rising 0 n vars.now }
    ensures { Became n m numbers.old words.old (set (rows_of n m numbers.old words.old) i (eqn vars.now c)) numbers.new words.new }
{
    let lens = m * n + n;
    areas::copy(vars, numbers, i * n);
    numbers[lens + i] = vars.len() as u32;
    words[i] = c;
}

// Rows `i` and `j`, of which `i` comes first, change places: as many numbers as the longer row has, and perhaps zeros behind them.
pub fn swap_rows(numbers: &mut [u32], words: &mut [u64], n: usize, m: usize, i: usize, j: usize)
    requires { Held n m numbers.old words.old × (i < j) × (j < m) }
    ensures { Became n m numbers.old words.old (swapped i j (rows_of n m numbers.old words.old)) numbers.new words.new }
{
    let lens = m * n + n;
    let li = numbers[lens + i];
    let lj = numbers[lens + j];
    let k = li.max(lj) as usize;
    numbers[lens + i] = lj;
    numbers[lens + j] = li;
    // By hand: the library's `swap` tells its indices apart first, which costs the solvers 2 to 4 percent more instructions.
    let c = words[i];
    words[i] = words[j];
    words[j] = c;
    front::exchange_front(numbers, i * n, j * n, k, n);
}

// Row `i` becomes its sum with row `j`. Returns `fallen` and what fell away: two for each variable that both had, by the lengths.
pub fn add_rows(
    numbers: &mut [u32],
    words: &mut [u64],
    n: usize,
    m: usize,
    i: usize,
    j: usize,
    fallen: u64,
) -> u64
    requires { Held n m numbers.old words.old × (i < j) × (j < m) × (n ≤ max_variables) × (fallen ≤ 2 ^ 63) }
    ensures became { Became n m numbers.old words.old (added i j (rows_of n m numbers.old words.old)) numbers.new words.new }
    ensures value { result ≡ fallen + 2 * common (row_at (rows_of n m numbers.old words.old) i).vars (row_at (rows_of n m numbers.old words.old) j).vars }
{
    let lens = m * n + n;
    let li = numbers[lens + i];
    let lj = numbers[lens + j];
    let both = li + lj;
    let k = row_sums::add_into(numbers, n, i * n, li as usize, j * n, lj as usize, m * n);
    numbers[lens + i] = k as u32;
    words[i] ^= words[j];
    fallen + both as u64 - k as u64
}
