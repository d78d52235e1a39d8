// Stacks of vertex numbers in lent slices, whose heads are lent too: memory is fixed, so no Vec.
#![tactic(auto)]

pub mod double;
pub mod fast;

// Where a stack ends: the first free cell from below, and, of a double stack, the last pushed cell from above.
#[derive(Clone, Copy, PartialEq, Debug)]
pub struct Head {
    pub lower: usize,
    pub upper: usize,
}
