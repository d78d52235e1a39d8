// One outer row of the dense part.
ghost use Rattle.std.specs.Prelude.{◌≡◌, List, take, drop};
ghost use Rattle.rows.specs.Picture.{rows_of};
ghost use Rattle.sparse_rules.specs.Cancelled.{outer_row_cancels};
ghost use Rattle.sparse_rows.specs.Reduction.{reduction_of};
ghost use Rattle.gf2.specs.Equation.{Equation};
ghost use Rattle.lazy.specs.Lazy.{State, dense_row};
ghost use Rattle.lazy_pops.specs.Step.{step_of};
ghost use Rattle.lazy_units.specs.Units.{ClearAt, ClearReady, Going};
ghost use Rattle.lazy_units.specs.Clearing.{ClearFits, Cleared};

use lazy_setup::{Layout, Stand};
use rows::{Counted, Unsolvable};

// Row i of the d rows of the dense part meets each later one.
fn clear_dense(
    numbers: &mut [u32],
    words: &mut [u64],
    layout: Layout,
    d: usize,
    i: usize,
) -> Counted<Result<(), Unsolvable>>
    requires { ClearFits layout.dense layout.n layout.m d i numbers.old words.old }
    ensures cleared { let end = reduction_of result.end in
        Cleared layout.dense layout.n layout.m d i numbers.old words.old numbers.new words.new end }
    ensures cancelled_value { let rows = rows_of layout.n layout.m (drop layout.dense numbers.old) (drop layout.m words.old) in
        result.cancelled ≡ outer_row_cancels i (take d rows) }
{
    let Layout { n, m, dense, .. } = layout;
    sparse_rows::echelon::outer_row(&mut numbers[dense..], &mut words[m..], n, m, d, i)
}

// One outer row of the dense part, where it is not the last.
pub fn clear_row(
    numbers: &mut [u32],
    words: &mut [u64],
    layout: Layout,
    stand: Stand,
) -> Counted<Result<Stand, Unsolvable>>
    requires { ClearReady layout.n layout.m layout stand numbers.old words.old }
    ensures going { (sys : List Equation) (s : State) → ClearAt layout.n layout.m layout sys s stand numbers.old words.old
        → Going layout.n layout.m layout sys s (dense_row s) (step_of result.end) numbers.new words.new }
    ensures cancelled_value { (sys : List Equation) (s : State) → ClearAt layout.n layout.m layout sys s stand numbers.old words.old
        → result.cancelled ≡ outer_row_cancels s.dense_done s.dense }
{
    let row = clear_dense(numbers, words, layout, stand.dense, stand.done);
    let cancelled = row.cancelled;
    match row.end {
        Err(unsolvable) => Counted {
            end: Err(unsolvable),
            cancelled,
        },
        Ok(()) => {
            let next = Stand {
                done: stand.done + 1,
                ..stand
            };
            Counted {
                end: Ok(next),
                cancelled,
            }
        }
    }
}
