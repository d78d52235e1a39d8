// A work area that is only read.
ghost use Rattle.std.specs.Prelude.{◌+◌, ◌*◌, ◌≤◌, length};

// Words, lent shared, of `m` rows of `w` words, one after the other, and then their constants.
#[derive(Clone, Copy)]
pub struct View<'a> {
    pub m: usize,
    pub w: usize,
    pub words: &'a [u64],
    ghost room: { m * w + m ≤ length words.now },
}

impl<'a> View<'a> {
    ghost use Rattle.std.specs.Prelude.{◌≡◌, ◌<◌, drop, get_or};
    ghost use Rattle.dense_rows.specs.Bits.{has_bit};
    ghost use Rattle.dense_rows.specs.Steps.{no_row, pivot_from};
    ghost use Rattle.dense_rows.specs.Areas.{rows_seen};

    // The words of row `i`.
    pub fn row(self, i: usize) -> &'a [u64]
        requires { i < self.m }
        ensures { result.now ≡ (get_or (rows_seen self.entry) i no_row).words }
    {
        &self.words[i * self.w..i * self.w + self.w]
    }

    // The constant of row `i`.
    pub fn constant(self, i: usize) -> u64
        requires { i < self.m }
        ensures { result ≡ (get_or (rows_seen self.entry) i no_row).c }
    {
        self.words[self.m * self.w + i]
    }

    // Whether row `i` has the column.
    pub fn has(self, col: usize, i: usize) -> bool
        requires { (col < 64 * self.w) × (i < self.m) }
        ensures { result ≡ has_bit col (get_or (rows_seen self.entry) i no_row) }
    {
        self.words[i * self.w + col / 64] & (1 << (col % 64)) != 0
    }

    // The first row from `rank` on that has the column.
    pub fn find_pivot(self, col: usize, rank: usize) -> Option<usize>
        requires { (rank ≤ self.m) × (col < 64 * self.w) }
        ensures { result ≡ pivot_from col rank (drop rank (rows_seen self.entry)) }
    {
        (rank..self.m).find(|i| self.has(col, *i))
    }
}
