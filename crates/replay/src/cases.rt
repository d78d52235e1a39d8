// The cases, one after the other: a byte for the kind, two for the length of the lists, the low one first, and the lists.
ghost use Rattle.std.specs.Prelude.{◌≤◌, length};

use crate::counts::Counts;
use crate::kinds::Kind;
use replay_cases::said::Verdict;
use std::io::Read;

// Reads until `bytes` is full, the input ends or a read fails, and says how many bytes it has.
fn read_full<R: Read>(input: &mut R, bytes: &mut [u8]) -> usize
    ensures { result ≤ length bytes.new }
{
    let mut full = 0;
    // No `for`: each read says how much came.
    while full < bytes.len() {
        match input.read(&mut bytes[full..]) {
            Ok(0) | Err(_) => break,
            Ok(more) => full += more,
        }
    }
    full
}

// One more case; says whether another may follow. What a cut head lacks is zeros: it counts as the last case.
fn replay_next<R: Read>(input: &mut R, counts: &mut Counts) -> bool {
    let mut head = [0u8; 3];
    let got = read_full(input, &mut head);
    if got == 0 {
        return false;
    }
    let [kind, low, high] = head;
    let kind = Kind::try_from(kind);
    let mut cells = [0u8; 65536];
    let body = &mut cells[..usize::from(u16::from_le_bytes([low, high]))];
    let whole = read_full(input, body) == body.len();
    let verdict = match kind {
        Ok(kind) if whole => kind.replay(body),
        _ => Verdict::Different,
    };
    counts.count(kind, verdict);
    got == 3
}

pub fn replay_all<R: Read>(input: &mut R, counts: &mut Counts) {
    // No file has more cases than turns.
    for _ in 0..1_000_000 {
        if !replay_next(input, counts) {
            return;
        }
    }
}
