// The sum of two equations, replayed.
use answers::Refusal;
use equation::Summed;
use lent_cells::cells::left;
use replay_cases::lend::{Room, Way};
use replay_cases::lists::Lists;
use replay_cases::said::{Said, Verdict, agrees, came_of, said_of, word_at};
use replay_cases::ways::each_way;

// Both equations, and the sum that the case says.
#[derive(Clone, Copy)]
struct Sum<'a> {
    left: &'a [u32],
    right: &'a [u32],
    constants: [u64; 2],
    found: &'a [u32],
    constant: u64,
}

// Whether the output holds the sum, then zeros up to both lengths together, then what it held.
fn sum_left(found: &[u32], total: usize, out: &[u32]) -> bool {
    let len = found.len();
    if total < len {
        return false;
    }
    match out.split_at_checked(len) {
        Some((front, rest)) => front == found && left(rest, total - len),
        None => false,
    }
}

fn judged(
    summed: &Result<Summed, Refusal>,
    want: Said,
    sum: &Sum,
    total: usize,
    out: &[u32],
) -> bool {
    if !agrees(summed, want) {
        return false;
    }
    match summed {
        Ok(told) => {
            told.len == sum.found.len()
                && told.constant == sum.constant
                && sum_left(sum.found, total, out)
        }
        Err(_) => left(out, 0),
    }
}

// Exactly the room, more, and one too few.
const WAYS: [Way; 3] = [Way::Exact, Way::More, Way::ShortNumbers];

fn sum_ways(sum: &Sum, said: Said) -> bool {
    let left = sum.left;
    let right = sum.right;
    // No case has longer lists.
    if 256 < left.len() || 256 < right.len() {
        return false;
    }
    let total = left.len() + right.len();
    let room = Room {
        numbers: total,
        ..Room::NONE
    };
    let [x, y] = sum.constants;
    let mut cells = [0u8; 1024];
    each_way(
        &WAYS,
        room,
        said,
        &mut cells,
        |want, _: &mut [u64], out: &mut [u32], _: &mut [u8]| {
            let summed = equation::sum(left, right, x, y, out);
            judged(&summed, want, sum, total, out)
        },
    )
}

// None where a list is broken.
fn verdict(bytes: &[u8]) -> Option<Verdict> {
    let mut lists = Lists::new(bytes);
    let mut constants = [0u64; 2];
    let mut left = [0u32; 256];
    let mut right = [0u32; 256];
    let mut list = [0u64; 8];
    let mut found = [0u32; 512];
    lists.load(&mut constants)?;
    let i = lists.load(&mut left)?;
    let j = lists.load(&mut right)?;
    let k = lists.load(&mut list)?;
    let l = lists.load(&mut found)?;
    if !lists.at_end() {
        return None;
    }
    let list = &list[..k];
    let said = said_of(list);
    let sum = Sum {
        left: &left[..i],
        right: &right[..j],
        constants,
        found: &found[..l],
        constant: word_at(list, 3),
    };
    Some(came_of(sum_ways(&sum, said), said))
}

pub fn sum_case(bytes: &[u8]) -> Verdict {
    verdict(bytes).unwrap_or(Verdict::Different)
}
