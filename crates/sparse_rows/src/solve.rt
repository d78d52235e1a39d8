// The rows are reduced, checked and solved.
ghost use Rattle.std.specs.Prelude.{◌≡◌, ◌≤◌, length, take, drop};
ghost use Rattle.answers.specs.Sizes.{max_variables, max_equations, row_numbers, row_words};
ghost use Rattle.rows.specs.Picture.{Held, Kept, rows_of};
ghost use Rattle.sparse_rules.specs.Eliminate.{gaussian_elimination};
ghost use Rattle.sparse_rules.specs.Cancelled.{sparse_cancels};
ghost use Rattle.sparse_rows.specs.Reduce.{FinishedBy};
ghost use Rattle.sparse_rows.specs.Reduction.{reduction_of};

use crate::echelon::{Counted, Unsolvable};

// Solves the first `d` rows; the solution is written only where there is one.
pub fn solve_rows(
    numbers: &mut [u32],
    words: &mut [u64],
    n: usize,
    m: usize,
    d: usize,
    solution: &mut [u64],
) -> Counted<Result<(), Unsolvable>>
    requires { Held n m numbers.old words.old × (d ≤ m) × (n ≤ max_variables) × (length solution.old ≡ n) × (m ≤ max_equations) }
    ensures finished_by { FinishedBy (gaussian_elimination n (take d (rows_of n m numbers.old words.old))) solution.old solution.new (reduction_of result.end) }
    ensures kept { Kept n m (drop (row_numbers n m) numbers.old) (drop (row_words m) words.old) numbers.new words.new }
    ensures cancelled_value { result.cancelled ≡ sparse_cancels (take d (rows_of n m numbers.old words.old)) }
{
    let form = crate::echelon::echelon_form(numbers, words, n, m, d);
    match form.end {
        Err(Unsolvable) => form,
        Ok(()) => Counted {
            end: crate::back::finish_rows(numbers, words, n, m, d, solution),
            cancelled: form.cancelled,
        },
    }
}
