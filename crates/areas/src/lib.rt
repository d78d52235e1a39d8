// Lent memory: stretches of a slice, filled, copied and exchanged.
#![tactic(auto)]

mod copies;
mod exchanges;
mod fills;

pub use copies::{copy, copy_within};
pub use exchanges::exchange;
pub use fills::fill;
