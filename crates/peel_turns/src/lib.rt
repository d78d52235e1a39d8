// A turn of the peeling, on the lent areas.
#![tactic(auto)]

pub mod record; // what is kept of a peeled edge
pub mod visiting; // the stack, and an edge taken off
