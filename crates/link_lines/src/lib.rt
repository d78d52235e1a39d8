// The lines of an answer to a link file, in decimal digits.
#![tactic(auto)]

mod lines;
mod outcomes;
mod text;

pub use text::Text;
