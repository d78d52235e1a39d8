// The two signature peelers over a lent table of edges.
#![tactic(auto)]

pub mod calls; // the peelers
pub mod programs; // the peelers for programs
