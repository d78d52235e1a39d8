// Dense rows of two words as the starts and variables of a sparse system.
ghost use Rattle.std.specs.Prelude.{◌+◌, ◌*◌, ◌<◌, ◌≤◌, length};

use crate::orders::Equations;

// Lists the columns of a row from index `at` on; hands back where they end.
fn list_row(n: usize, row: &[u64], vars: &mut [u32], at: usize) -> usize
    requires { (n ≤ 80) × (n ≤ 64 * length row.now) × (at + n ≤ length vars.old) }
    ensures { result ≤ at + n }
{
    let mut t = at;
    for v in 0..n {
        if (row[v / 64] >> (v % 64)) & 1 != 0 {
            vars[t] = v as u32;
            t += 1;
        }
    }
    t
}

// Lists every row; hands back how many variables that are.
pub fn list_rows(equations: &Equations, starts: &mut [u32], vars: &mut [u32]) -> usize
    requires { (equations.now.m < length starts.old) × (80 * equations.now.m ≤ length vars.old) }
    ensures { result ≤ 80 * equations.now.m }
{
    let mut t: usize = 0;
    for i in 0..equations.m {
        starts[i] = t as u32;
        t = list_row(equations.n, &equations.rows[2 * i..2 * i + 2], vars, t);
    }
    starts[equations.m] = t as u32;
    t
}
