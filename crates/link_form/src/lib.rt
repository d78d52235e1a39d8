// The form of a link file: its numbers, and whether its bytes are all there.
#![tactic(auto)]

mod bytes;
mod form;
mod kind;
mod lent;
mod rows;

pub use bytes::read_number;
pub use form::{Form, MAX_BYTES, VERSION, read_form};
pub use kind::Kind;
pub use lent::{
    LENT_BYTES, LENT_NUMBERS, LENT_WORDS, MOST_LISTED, MOST_ROWS, MOST_VARIABLES, ServedFile,
};
pub use rows::{HEADER_BYTES, Rows, WIDTH, count_at, count_bytes};
