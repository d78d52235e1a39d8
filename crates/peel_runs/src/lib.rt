// The run of a signature peeler over a lent table of edges.
#![tactic(auto)]

pub mod run; // the parts of the run, one after the other
