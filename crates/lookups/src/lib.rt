// What a decoder asks of a filled table.
#![tactic(auto)]

pub mod reading; // the bib of a transponder
