// Stacks of vertex numbers in lent slices, whose heads are lent too.
#![tactic(auto)]

pub use stack_steps::{Head, double, fast};
