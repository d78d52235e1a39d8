// The two files, changed and cut short.
ghost use Rattle.std.specs.Prelude.{◌<◌};

use crate::asks::answered;
use crate::counts::Tally;

const LENGTH: usize = 38;

// {0,1} = 1 and {0,2} = 2 in 3 variables, by lazy elimination.
pub const LAZY_FILE: [u8; LENGTH] = [
    b'L', b'N', b'K', 1, 0, 2, 3, 0, 2, 0, // the header
    2, 0, 0, 0, 1, 0, 1, 0, 0, 0, 0, 0, 0, 0, // the rows
    2, 0, 0, 0, 2, 0, 2, 0, 0, 0, 0, 0, 0, 0,
];
// (0,1,2) = 5 and (1,2,3) = 6 over 4 vertices, by the low-memory peeler.
pub const PEEL_FILE: [u8; LENGTH] = [
    b'L', b'N', b'K', 1, 0, 3, 4, 0, 2, 0, // the header
    0, 0, 1, 0, 2, 0, 5, 0, 0, 0, 0, 0, 0, 0, // the edges
    1, 0, 2, 0, 3, 0, 6, 0, 0, 0, 0, 0, 0, 0,
];

// What a change at byte p must give: 9 in mark, version and m, 0 in a value; n, kind, counts and variables need a look at the rest.
fn must(p: usize) -> Option<usize> {
    match p {
        0..=4 | 8 | 9 => Some(9),
        16..=23 | 30.. => Some(0),
        _ => None,
    }
}

fn change(tally: &mut Tally, file: &[u8; LENGTH], p: usize, v: u8)
    requires { p < 38 }
{
    if file[p] == v {
        return;
    }
    let mut changed = *file;
    changed[p] = v;
    tally.count(answered(&changed), must(p));
}

// All 255 other values of each byte.
pub fn changes(tally: &mut Tally, file: &[u8; LENGTH]) {
    for p in 0..LENGTH {
        for v in 0..=u8::MAX {
            change(tally, file, p, v);
        }
    }
}

// Every shorter file is refused by 9.
pub fn truncations(tally: &mut Tally, file: &[u8; LENGTH]) {
    for k in 0..LENGTH {
        tally.count(answered(&file[..k]), Some(9));
    }
}
