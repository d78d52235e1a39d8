// The calls on graph and stacks, replayed.
#![tactic(auto)]

mod calls; // the calls and replies of a case
pub mod graphs;
pub mod pushes;
pub mod replies;
