// The slow engine: each pivot column is cleared in all other rows, and then the constants are read off.
ghost use Rattle.std.specs.Prelude.{◌≡◌};

use crate::columns::{clear_columns, read_off};
use dense::engine::Engine;
use dense_rows::Area;

pub struct Slow;

impl Engine for Slow {
    ghost use Rattle.slow_rules.specs.Slow.{slow_elimination, Clears, PivotsBelow, read_pivots};
    ghost use Rattle.slow_rules.proofs.Cleared.{clears_below, clears_refused, clears_solved};

    ghost elimination = { slow_elimination };

    ghost Reduces = { Clears };

    ghost Readable = { PivotsBelow };

    ghost values = { read_pivots };

    ghost readable = { clears_below };

    ghost refuses = { clears_refused };

    ghost solves = { clears_solved };

    fn reduce(n: usize, area: &mut Area, numbers: &mut [u32]) -> usize {
        clear_columns(n, area, numbers)
    }

    fn read(area: &Area, pivots: &[u32], solution: &mut [u64]) {
        read_off(area.view(), pivots, solution);
    }
}
