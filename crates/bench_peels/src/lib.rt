// What the runs of the workbench hold the peelers to.
#![tactic(auto)]

pub mod graphs; // the two peelers on one table
