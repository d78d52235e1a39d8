// The lent sparse system: `rules` refuses with 1 to 3.
#![tactic(auto)]

mod order;
mod shape;

ghost use Rattle.std.specs.Prelude.{◌≡◌};
ghost use Rattle.answers.specs.Answers.{rules_of};
ghost use Rattle.system.specs.System.{equation_at};
ghost use Rattle.system.specs.Lent.{rules_in, ReadableIn};

use answers::Refusal;

// A sparse system as it is lent: equation i lists the variables from start i up to start i + 1.
#[derive(Clone, Copy)]
pub struct System<'a> {
    // How many variables.
    pub n: usize,
    // How many equations.
    pub m: usize,
    pub starts: &'a [u32],
    pub vars: &'a [u32],
    pub constants: &'a [u64],
}

impl<'a> System<'a> {
    // Whether what was lent is a system: the sizes, then the shape, then the order of each equation's variables.
    pub fn rules(&self) -> Result<(), Refusal>
        ensures { rules_of result ≡ rules_in self.now }
    {
        if !shape::sizes_fit(self.n, self.m, self.vars.len()) {
            return Err(Refusal::TooLarge);
        }
        if !shape::shape_kept(self) {
            return Err(Refusal::BadShape);
        }
        match order::lowest_bad(self) {
            Some(equation) => Err(Refusal::BadEntry(equation)),
            None => Ok(()),
        }
    }

    // The variables of equation i.
    pub fn variables(&self, i: usize) -> &'a [u32]
        requires { ReadableIn self.now i }
        ensures { result.now ≡ (equation_at self.now.starts.now self.now.vars.now self.now.constants.now i).vars }
    {
        &self.vars[self.starts[i] as usize..self.starts[i + 1] as usize]
    }
}
