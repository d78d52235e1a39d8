// The file program on slices: the bytes of a link file in, the text of its answer out.
#![tactic(auto)]

ghost use Rattle.std.specs.Prelude.{◌≡◌, ◌+◌, ◌<◌, ◌≤◌, ◌↔◌, length, IsNone, IfSome};
ghost use Rattle.link_lines.specs.Text.{Adds};
ghost use Rattle.link_file.specs.Text.{link_text, most_text, link_call, written_of};

use link_form::VERSION;
use link_lines::Text;

mod solving; // the call that a file asks for
mod telling; // the lines of its answer

// No text is longer.
pub const MOST_TEXT: usize = 10882;

fn write_text(bytes: &[u8], text: &mut Text)
    requires { text.old.end + most_text ≤ length text.old.out.now }
    ensures { Adds (link_text bytes.now) text.old text.new }
{
    let read = link_form::read_form(bytes);
    match &read {
        Err(_) => text.refusal(&read),
        Ok(form) => {
            text.header_line(VERSION, u64::from(form.kind), form.n, form.m);
            telling::write_answer(bytes, form, text);
        }
    }
}

// Writes the text for a file, and says how long it is; `None` and nothing where `out` is shorter than MOST_TEXT.
pub fn link_file(bytes: &[u8], out: &mut [u8]) -> Option<usize>
    ensures value { written_of result ≡ (link_call bytes.now out.old).written }
    ensures within { IfSome result (λ end. end ≤ length out.new) }
    ensures none { IsNone result ↔ (length out.old < most_text) }
    ensures out_after { out.new ≡ (link_call bytes.now out.old).out }
{
    if out.len() < MOST_TEXT {
        return None;
    }
    let mut text = Text { out, end: 0 };
    write_text(bytes, &mut text);
    Some(text.end)
}
