// Dense elimination on rows in one area: the walk over the columns, and back substitution.
#![tactic(auto)]

pub mod back;
pub mod walk;
