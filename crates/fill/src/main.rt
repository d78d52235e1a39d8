// Reads a link file from standard input and writes the text of its answer.
#![tactic(auto)]

ghost use Rattle.std.specs.Prelude.{◌≤◌, length};

use link_file::MOST_TEXT;
use link_form::MAX_BYTES;
use std::io::{Read, Write};

// Reads until `bytes` is full, the input ends or a read fails, and says how many bytes it has.
fn read_full<R: Read>(input: &mut R, bytes: &mut [u8]) -> usize
    ensures { result ≤ length bytes.new }
{
    let mut full = 0;
    // No `for`: each read says how much came.
    while full < bytes.len() {
        match input.read(&mut bytes[full..]) {
            Ok(0) | Err(_) => break,
            Ok(more) => full += more,
        }
    }
    full
}

fn main(rt: HostRuntime) {
    // One byte more than the longest file, so that a longer input is seen.
    let mut bytes = [0; MAX_BYTES + 1];
    let mut text = [0; MOST_TEXT];
    let full = read_full(&mut rt.stdin(), &mut bytes);
    let end = link_file::link_file(&bytes[..full], &mut text).unwrap();
    // A write that fails is passed over.
    let _ = rt.stdout().write_all(&text[..end]);
}
