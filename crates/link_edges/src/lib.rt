// The edges of a link file, solved by the low-memory peeler.
#![tactic(auto)]

mod load;
mod solve;

pub use load::load_edges;
pub use solve::solve_edges;
