// The refusals of every call, with the numbers and places of the rules, and the largest sizes and rooms.
#![tactic(auto)]

mod lengths;
mod refusal;
mod sizes;

pub use lengths::lengths_kept;
pub use refusal::{
    Built, IntoAnswer, Numbered, Refusal, StuckReport, Unpeeled, number, place, tell,
};
pub use sizes::{
    MAX_EQUATIONS, MAX_LISTED, MAX_ROW_WORDS, MAX_SUMMED, MAX_VARIABLES, dense_words, lazy_numbers,
    lazy_words, peel_high_bytes, peel_high_numbers, peel_low_numbers, sparse_numbers,
};
