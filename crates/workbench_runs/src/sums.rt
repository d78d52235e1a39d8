// The sums at the edge of a word and at the edge of a degree; a line that cannot be written is passed over.
ghost use Rattle.std.specs.Prelude.{◌+◌, ◌*◌, ◌≤◌, ◌<◌};

use answers::{number, place};
use dense::dense_gaussian_elimination;
use dense_rows::DenseSystem;
use peelers::calls::peel_by_sig_vals_low_mem;
use peeling::numbers::{Edge, Vertex};

// One row with one bit and constant 9; tells the answer, and what the last variable is afterwards.
fn dense_sum(rt: &impl Print, n: usize, w: usize, bit: usize)
    requires { (0 < n) × (n ≤ 128) × (bit < 64 * w) × (w ≤ 2) }
{
    let mut rows = [0u64; 2];
    let constants = [9u64; 1];
    let mut solution = [0u64; 128];
    let mut numbers = [0u32; 1];
    let mut words = [0u64; 3];
    rows[bit / 64] = 1 << (bit % 64);
    let system = DenseSystem {
        n,
        m: 1,
        w,
        rows: &rows,
        constants: &constants,
    };
    let answer = dense_gaussian_elimination(&system, &mut solution[..n], &mut numbers, &mut words);
    let number = number(&answer);
    let place = place(&answer);
    let last = solution[n - 1];
    let _ = print!(rt; "dense, n {n}, w {w}, bit {bit}, constant 9: ");
    let _ = println!(rt; "number {number}, place {place}, last variable {last}");
}

pub fn dense_sums(rt: &impl Print) {
    dense_sum(rt, 64, 1, 63);
    dense_sum(rt, 65, 2, 64);
    dense_sum(rt, 64, 2, 64);
}

// Edge i of a star: vertex 0, and two vertices of its own.
fn ray(i: usize) -> Edge
    requires { i < 256 }
{
    Edge {
        a: Vertex(0),
        b: Vertex((2 * i + 1) as u32),
        c: Vertex((2 * i + 2) as u32),
        value: i as u64,
    }
}

fn star() -> [Edge; 256] {
    let mut table = [ray(0); 256];
    for i in 0..256 {
        table[i] = ray(i);
    }
    table
}

fn crowd(rt: &impl Print, m: usize)
    requires { m ≤ 100 }
{
    let mut solution = [0u64; 201];
    let mut numbers = [0u32; 402];
    let mut bytes = [0u8; 201];
    let n = 2 * m + 1;
    let table = star();
    let edges = &table[..m];
    let answer = peel_by_sig_vals_low_mem(n, edges, &mut solution[..n], &mut numbers, &mut bytes);
    let number = number(&answer);
    let place = place(&answer);
    let _ = println!(rt; "a vertex on {m} edges: number {number}, place {place}");
}

pub fn crowds(rt: &impl Print) {
    crowd(rt, 63);
    crowd(rt, 64);
}
