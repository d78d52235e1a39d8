// What stands before a peeler's run and behind it.
#![tactic(auto)]

pub mod rooms; // the room of the areas
pub mod rules; // what is refused before the run
pub mod ends; // what a peeler answers
