// Text in lent bytes, written piece by piece.
ghost use Rattle.std.specs.Prelude.{◌+◌, ◌≤◌, length};
ghost use Rattle.link_lines.specs.Lines.{ended, most_ended};
ghost use Rattle.link_lines.specs.Text.{Adds};

use itoa::Buffer;

// The bytes that are lent, and where the text ends so far.
#[derive(Drop)]
pub struct Text<'a> {
    pub out: &'a mut [u8],
    pub end: usize,
}

impl<'a> Text<'a> {
    // Adds the bytes.
    pub(crate) fn push(&mut self, bytes: &[u8])
        requires { self.old.end + length bytes.now ≤ length self.old.out.now }
        ensures { Adds bytes.now self.old self.new }
    {
        let end = self.end;
        let out = &mut *self.out;
        areas::copy(bytes, out, end);
        self.end = end + bytes.len();
    }

    // Adds a number and the byte that ends it.
    pub(crate) fn number(&mut self, x: u64, end: u8)
        requires { self.old.end + most_ended ≤ length self.old.out.now }
        ensures adds { Adds (ended x end) self.old self.new }
        ensures short { self.new.end ≤ self.old.end + most_ended }
    {
        let mut digits = Buffer::new();
        self.push(digits.format(x).as_bytes());
        self.push(&[end]);
    }
}
