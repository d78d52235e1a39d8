// What the file program serves and lends.
ghost use Rattle.std.specs.Prelude.{◌≡◌};
ghost use Rattle.link_form.specs.Lent.{sizes_served, Served};
ghost use Rattle.link_form.specs.Kinds.{number_of_kind};

use crate::form::Form;
use crate::rows::Rows;

// The largest n, m and t that are served.
pub const MOST_VARIABLES: usize = 512;

pub const MOST_ROWS: usize = 256;

pub const MOST_LISTED: usize = 2048;
// The areas that are lent.
pub const LENT_NUMBERS: usize = 8192;

pub const LENT_WORDS: usize = 512;

pub const LENT_BYTES: usize = 1024;

impl Form {
    // Whether no size is above the largest.
    pub fn is_served(&self) -> bool
        ensures { result ≡ sizes_served self.now.n self.now.m self.now.t }
    {
        self.n <= MOST_VARIABLES && self.m <= MOST_ROWS && self.t <= MOST_LISTED
    }
}

// A file that is served: whole, and no size above the largest.
#[derive(Clone, Copy)]
pub struct ServedFile<'a> {
    pub bytes: &'a [u8],
    pub form: Form,
    ghost served: { Served (number_of_kind form.kind) form.n form.m bytes.now },
}

impl<'a> ServedFile<'a> {
    ghost use Rattle.link_form.specs.Rows.{AreBehindHeader};

    // Its rows, behind the header.
    pub fn rows(&self) -> Rows<'a>
        ensures { AreBehindHeader self.now.bytes.now self.now.form.kind result }
    {
        Rows::of_file(self.bytes, self.form.kind)
    }
}
