// Seeded systems and graphs for the runs of the workbench.
#![tactic(auto)]

pub mod random; // the numbers that a seed gives
pub mod equations; // systems, in sparse and dense form
pub mod graphs; // tables of edges
