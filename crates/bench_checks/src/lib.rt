// What the runs of the workbench hold the solvers to, and the counts that all runs use.
#![tactic(auto)]

pub mod tally; // answers and comparisons, counted
pub mod systems; // the four solvers on one system
