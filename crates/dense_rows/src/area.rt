// The work area of an elimination.
ghost use Rattle.std.specs.Prelude.{◌+◌, ◌*◌, ◌≤◌, length};

use crate::view::View;

// A lent area of `m` rows of `w` words, one after the other, and then their constants.
#[derive(Drop)]
pub struct Area<'a> {
    pub m: usize,
    pub w: usize,
    pub words: &'a mut [u64],
    ghost room: { m * w + m ≤ length words.now },
}

impl<'a> Area<'a> {
    ghost use Rattle.std.specs.Prelude.{◌≡◌, ◌<◌, drop, get_or};
    ghost use Rattle.dense_rows.specs.Bits.{has_bit};
    ghost use Rattle.dense_rows.specs.Steps.{no_row, pivot_from};
    ghost use Rattle.dense_rows.specs.Areas.{rows_in, Views};

    // The area as it is read: what is lent shared can be read in the same way.
    pub fn view(&self) -> View
        ensures { Views self.now result }
    {
        View {
            m: self.m,
            w: self.w,
            words: self.words,
        }
    }

    // The words of row `i`.
    pub fn row(&self, i: usize) -> &[u64]
        requires { i < self.now.m }
        ensures { result.now ≡ (get_or (rows_in self.now) i no_row).words }
    {
        self.view().row(i)
    }

    // The constant of row `i`.
    pub fn constant(&self, i: usize) -> u64
        requires { i < self.now.m }
        ensures { result ≡ (get_or (rows_in self.now) i no_row).c }
    {
        self.view().constant(i)
    }

    // Whether row `i` has the column.
    pub fn has(&self, col: usize, i: usize) -> bool
        requires { (col < 64 * self.now.w) × (i < self.now.m) }
        ensures { result ≡ has_bit col (get_or (rows_in self.now) i no_row) }
    {
        self.view().has(col, i)
    }

    // The first row from `rank` on that has the column.
    pub fn find_pivot(&self, col: usize, rank: usize) -> Option<usize>
        requires { (rank ≤ self.now.m) × (col < 64 * self.now.w) }
        ensures { result ≡ pivot_from col rank (drop rank (rows_in self.now)) }
    {
        self.view().find_pivot(col, rank)
    }
}
