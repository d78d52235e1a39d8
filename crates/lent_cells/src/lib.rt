// Lent memory for the programs that test calls: marked before a call, looked at after it.
#![tactic(auto)]

pub mod cells;
