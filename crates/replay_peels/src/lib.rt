// The peelers, replayed.
#![tactic(auto)]

pub mod peels;
