// The lent dense system: `rules` refuses with 1 to 3.
ghost use Rattle.std.specs.Prelude.{◌≡◌, ◌*◌, ◌≤◌, length};
ghost use Rattle.answers.specs.Answers.{rules_of};
ghost use Rattle.dense_rows.specs.Rules.{row_rules, entry_rules, rows_lent, rules_in};

use crate::fits::row_fits;
use answers::Refusal;

// A dense system as it is lent: rows of `w` words, one after the other; column c is bit c mod 64 of a row's word c div 64.
#[derive(Clone, Copy)]
pub struct DenseSystem<'a> {
    // How many variables.
    pub n: usize,
    // How many rows.
    pub m: usize,
    // How many words a row has.
    pub w: usize,
    pub rows: &'a [u64],
    pub constants: &'a [u64],
}

impl<'a> DenseSystem<'a> {
    // Whether what was lent is a system: the sizes, then the lengths, then the bits.
    pub fn rules(&self) -> Result<(), Refusal>
        ensures { rules_of result ≡ rules_in self.now }
    {
        if self.n > answers::MAX_VARIABLES
            || self.m > answers::MAX_EQUATIONS
            || self.w > answers::MAX_ROW_WORDS
        {
            return Err(Refusal::TooLarge);
        }
        if self.rows.len() < self.m * self.w
            || self.constants.len() < self.m
            || 64 * self.w < self.n
        {
            return Err(Refusal::BadShape);
        }
        match self.bad_row() {
            Some(row) => Err(Refusal::BadEntry(row)),
            None => Ok(()),
        }
    }

    // The lowest row with a bit at column `n` or above.
    fn bad_row(&self) -> Option<usize>
        requires { self.now.m * self.now.w ≤ length self.now.rows.now }
        ensures { entry_rules result ≡ row_rules self.now.n 0 (rows_lent self.now) }
    {
        (0..self.m).find(|i| !row_fits(&self.rows[i * self.w..i * self.w + self.w], self.n))
    }
}
