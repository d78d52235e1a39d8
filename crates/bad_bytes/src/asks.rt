// The number that a file is answered with.
ghost use Rattle.std.specs.Prelude.{◌≤◌, IfSome};

use link_file::MOST_TEXT;

fn digit(b: u8) -> Option<usize>
    ensures { IfSome result (λ number. number ≤ 9) }
{
    match b {
        b'0'..=b'9' => Some(usize::from(b - b'0')),
        _ => None,
    }
}

// The number stands behind the first line; the text of 9 has no header before it.
fn number_in(text: &[u8]) -> Option<usize>
    ensures { IfSome result (λ number. number ≤ 9) }
{
    let end = text.iter().position(|b| *b == b'\n')?;
    digit(*text.get(end + 1)?)
}

// `None` where no text of an answer has what stands there.
pub fn answered(file: &[u8]) -> Option<usize>
    ensures { IfSome result (λ number. number ≤ 9) }
{
    let mut text = [0; MOST_TEXT];
    link_file::link_file(file, &mut text);
    if text[0] == b'9' {
        return Some(9);
    }
    number_in(&text)
}
