// Lazy elimination in units.
#![tactic(auto)]

mod clearing;
mod filling;
pub mod units;
