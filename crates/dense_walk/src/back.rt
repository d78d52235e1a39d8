// Back substitution.
ghost use Rattle.std.specs.Prelude.{◌≡◌, ◌≤◌, length, take};
ghost use Rattle.answers.specs.Sizes.{max_row_words};
ghost use Rattle.dense_rows.specs.Areas.{rows_seen};
ghost use Rattle.dense_walk.specs.Eliminate.{back_sub};
ghost use Rattle.dense_walk.specs.Stairs.{Ready};

use dense_rows::View;
use dense_rows::values::row_value;

// From the last pivot to the first, each pivot gets the value that meets its row.
pub fn back_substitution(view: View, pivots: &[u32], solution: &mut [u64])
    requires { (length pivots.now ≤ view.m) × (view.w ≤ max_row_words) × Ready (length solution.old) view.w pivots.now (take (length pivots.now) (rows_seen view)) }
    ensures { solution.new ≡ back_sub (length solution.old) pivots.now (take (length pivots.now) (rows_seen view.entry)) solution.old }
{
    for i in (0..pivots.len()).rev() {
        let pivot = pivots[i] as usize;
        solution[pivot] = view.constant(i) ^ row_value(view.row(i), pivot / 64, solution);
    }
}
