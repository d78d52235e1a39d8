// The numbers and the graph that both peelers use.
#![tactic(auto)]

pub mod graph;
pub mod incidence;
pub mod numbers;
