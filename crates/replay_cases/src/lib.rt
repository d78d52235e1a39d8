// What a replayed case holds, and what a call must have left.
#![tactic(auto)]

pub mod judging; // answer and cells, held to a case
pub mod lend; // the ways of lending
pub mod lists; // the lists of a case
pub mod said; // what must be answered
pub mod ways; // each way of lending, tried
