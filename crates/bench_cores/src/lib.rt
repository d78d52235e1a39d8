// Crowds and cores of a table, by the rules alone.
#![tactic(auto)]

pub mod cores;
