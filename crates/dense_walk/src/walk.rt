// The walk over the columns.
ghost use Rattle.std.specs.Prelude.{◌≡◌, ◌*◌, ◌≤◌, length, drop};
ghost use Rattle.answers.specs.Sizes.{max_variables};
ghost use Rattle.dense_rows.specs.Areas.{rows_seen, SameArea};
ghost use Rattle.dense_walk.specs.Eliminate.{residue};
ghost use Rattle.dense_walk.specs.Areas.{Eliminated};

use dense_rows::{Area, View};
use dense_steps::take_pivot;

// Columns left to right, until every row has a pivot: the rank. A column that no row has is passed over.
#[tactic(auto, using(crate::proofs::Walking::walking_done, crate::proofs::Walking::walking_full))]
pub fn eliminate(n: usize, area: &mut Area, numbers: &mut [u32]) -> usize
    requires { (n ≤ max_variables) × (n ≤ 64 * area.old.w) × (area.old.m ≤ length numbers.old) }
    ensures same { SameArea area.old area.new }
    ensures eliminated { Eliminated n area.old.m area.old.w numbers.old area.old.words.now result numbers.new area.new.words.now }
{
    let mut rank = 0;
    for col in 0..n {
        if rank == area.m {
            break;
        }
        let Some(pivot) = area.find_pivot(col, rank) else {
            continue;
        };
        take_pivot(area, col, rank, pivot);
        numbers[rank] = col as u32;
        rank += 1;
    }
    rank
}

// Whether a row from the rank on has a constant that is not 0.
pub fn constant_left(view: View, rank: usize) -> bool
    requires { rank ≤ view.m }
    ensures { result ≡ residue (drop rank (rows_seen view.entry)) }
{
    (rank..view.m).any(|i| view.constant(i) != 0)
}
