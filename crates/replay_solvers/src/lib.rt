// The calls on systems, replayed.
#![tactic(auto)]

pub mod checks;
pub mod denses;
pub mod sums;
pub mod systems;
