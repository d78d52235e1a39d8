// The pops of lazy elimination, on its work areas.
#![tactic(auto)]

pub mod copying;
pub mod lowering;
pub mod popping;
pub mod solving;
pub mod variables;
