// The lines that tell an answer.
ghost use Rattle.std.specs.Prelude.{◌+◌, ◌*◌, ◌≤◌, length};
ghost use Rattle.link_lines.specs.Lines.{header_line, answer_line, value_lines, most_ended, most_header, most_answer};
ghost use Rattle.link_lines.specs.Text.{Adds};

use crate::text::Text;

impl<'a> Text<'a> {
    // Adds the line of mark, version, kind, n and m.
    pub fn header_line(&mut self, version: u64, kind: u64, n: usize, m: usize)
        requires { self.old.end + most_header ≤ length self.old.out.now }
        ensures { Adds (header_line version kind n m) self.old self.new }
    {
        self.push(b"LNK ");
        self.number(version, b' ');
        self.number(kind, b' ');
        self.number(n as u64, b' ');
        self.number(m as u64, b'\n');
    }

    // Adds the line of number and place.
    pub(crate) fn answer_line(&mut self, number: u32, place: usize)
        requires { self.old.end + most_answer ≤ length self.old.out.now }
        ensures { Adds (answer_line number place) self.old self.new }
    {
        self.number(u64::from(number), b' ');
        self.number(place as u64, b'\n');
    }

    // Adds the values, one a line.
    pub(crate) fn values(&mut self, values: &[u64])
        requires { self.old.end + length values.now * most_ended ≤ length self.old.out.now }
        ensures { Adds (value_lines values.now) self.old self.new }
    {
        for value in values {
            self.number(*value, b'\n');
        }
    }
}
