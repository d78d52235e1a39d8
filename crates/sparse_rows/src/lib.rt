// Sparse elimination on rows that stand in lent areas.
#![tactic(auto)]

pub mod back;
pub mod echelon;
pub mod solve;
