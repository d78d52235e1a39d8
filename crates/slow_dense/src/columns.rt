// Each pivot column is cleared in all other rows, above and below, and then the constants are read off.
ghost use Rattle.std.specs.Prelude.{◌≡◌, ◌*◌, ◌≤◌, ◌<◌, length, take};
ghost use Rattle.gf2.specs.Equation.{Each};
ghost use Rattle.answers.specs.Sizes.{max_variables};
ghost use Rattle.dense_rows.specs.Areas.{rows_in, rows_seen, SameArea, Holds};
ghost use Rattle.slow_rules.specs.Slow.{read_off, pivot_rows};
ghost use Rattle.slow_dense.specs.Columns.{clear_above, ColumnsDone};

use dense_rows::{Area, View};
use dense_steps::{clear_rows, take_pivot};

// Each row above the pivot row that has the column gets the pivot row.
pub fn clear_above(area: &mut Area, col: usize, rank: usize)
    requires { (rank < area.old.m) × (col < 64 * area.old.w) }
    ensures { Holds area.old (clear_above col rank (rows_in area.old)) area.new }
{
    // the pivot row has no column before the column's word
    clear_rows(area, col, col / 64, rank, 0, rank);
}

// Columns left to right: each pivot column is cleared in all other rows. Hands back how many pivots there are.
pub fn clear_columns(n: usize, area: &mut Area, numbers: &mut [u32]) -> usize
    requires { (n ≤ max_variables) × (n ≤ 64 * area.old.w) × (area.old.m ≤ length numbers.old) }
    ensures same { SameArea area.old area.new }
    ensures done { ColumnsDone n area.old.m area.old.w numbers.old area.old.words.now result numbers.new area.new.words.now }
{
    let mut rank = 0;
    for col in 0..n {
        let Some(pivot) = area.find_pivot(col, rank) else {
            continue;
        };
        // brings the pivot row up to the rank, and clears the rows below it
        take_pivot(area, col, rank, pivot);
        clear_above(area, col, rank);
        numbers[rank] = col as u32;
        rank += 1;
    }
    rank
}

// Each pivot's cell gets the constant of its row: the row has no other pivot's column, and the cells of its other columns are 0.
pub fn read_off(view: View, pivots: &[u32], solution: &mut [u64])
    requires { (length pivots.now ≤ view.m) × Each (λ p. p < length solution.old) pivots.now }
    ensures { solution.new ≡ read_off (pivot_rows pivots.now (take (length pivots.now) (rows_seen view.entry))) solution.old }
{
    for (i, pivot) in pivots.iter().enumerate() {
        solution[*pivot as usize] = view.constant(i);
    }
}
