// What is left of the rows: checked, and solved from the last row to the first.
ghost use Rattle.std.specs.Prelude.{◌≡◌, [], ◌∷◌, ◌+◌, ◌≤◌, ◌<◌, length, take};
ghost use Rattle.rows.specs.Picture.{Held, rows_of, row_at};
ghost use Rattle.sparse_rules.specs.Eliminate.{contradicted, pin, back_sub, finish};
ghost use Rattle.sparse_rows.specs.Reduce.{FinishedBy};
ghost use Rattle.sparse_rows.specs.Reduction.{reduction_of};

use crate::echelon::Unsolvable;

// Whether row `i` is an equation that no values meet.
fn is_unsolvable(numbers: &[u32], words: &[u64], n: usize, m: usize, i: usize) -> bool
    requires { Held n m numbers.now words.now × (i < m) }
    ensures { result ≡ contradicted (row_at (rows_of n m numbers.now words.now) i ∷ []) }
{
    if numbers[m * n + n + i] != 0 {
        return false;
    }
    words[i] != 0
}

// Whether one of the first `d` rows is an equation that no values meet.
pub fn any_unsolvable(numbers: &[u32], words: &[u64], n: usize, m: usize, d: usize) -> bool
    requires { Held n m numbers.now words.now × (d ≤ m) }
    ensures { result ≡ contradicted (take d (rows_of n m numbers.now words.now)) }
{
    for i in 0..d {
        if is_unsolvable(numbers, words, n, m, i) {
            return true;
        }
    }
    false
}

// The first variable of row `i` gets the value that meets the row.
fn pin_row(numbers: &[u32], words: &[u64], n: usize, m: usize, i: usize, solution: &mut [u64])
    requires { Held n m numbers.now words.now × (i < m) × (length solution.old ≡ n) }
    ensures { solution.new ≡ pin (row_at (rows_of n m numbers.now words.now) i) solution.old }
{
    let l = numbers[m * n + n + i] as usize;
    if l == 0 {
        return;
    }
    let p = i * n;
    let sum = system_check::eval_vars(&numbers[p..p + l], solution);
    let v = numbers[p] as usize;
    solution[v] = words[i] ^ sum;
}

// Back substitution, from row `d` - 1 to row 0.
pub fn back_substitution(
    numbers: &[u32],
    words: &[u64],
    n: usize,
    m: usize,
    d: usize,
    solution: &mut [u64],
)
    requires { Held n m numbers.now words.now × (d ≤ m) × (length solution.old ≡ n) }
    ensures { solution.new ≡ back_sub (take d (rows_of n m numbers.now words.now)) solution.old }
{
    for i in (0..d).rev() {
        pin_row(numbers, words, n, m, i, solution);
    }
}

// What is left of the first `d` rows is checked, and then solved; the solution is written only where there is one.
pub fn finish_rows(
    numbers: &[u32],
    words: &[u64],
    n: usize,
    m: usize,
    d: usize,
    solution: &mut [u64],
) -> Result<(), Unsolvable>
    requires { Held n m numbers.now words.now × (d ≤ m) × (length solution.old ≡ n) }
    ensures { FinishedBy (finish n (take d (rows_of n m numbers.now words.now))) solution.old solution.new (reduction_of result) }
{
    if any_unsolvable(numbers, words, n, m, d) {
        return Err(Unsolvable);
    }
    areas::fill(solution, 0, n, 0);
    back_substitution(numbers, words, n, m, d, solution);
    Ok(())
}
