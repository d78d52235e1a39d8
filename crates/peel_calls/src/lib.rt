// The call that both signature peelers share.
#![tactic(auto)]

pub mod call; // refused, or run
