// Dense elimination, replayed by both dense engines.
use answers::Refusal;
use dense_rows::DenseSystem;
use replay_cases::judging::judged;
use replay_cases::lend::{Room, Way};
use replay_cases::lists::Lists;
use replay_cases::said::{Said, Verdict, came_of, said_of};
use replay_cases::ways::each_way;

// The room, as far as the replay goes; past that a case is refused for its size.
fn dense_room(system: &DenseSystem) -> Room {
    if 256 < system.m || 256 < system.w {
        return Room::NONE;
    }
    Room {
        solution: system.n,
        numbers: system.m,
        others: answers::dense_words(system.m, system.w),
    }
}

fn dense_ways<F: Fn(&DenseSystem, &mut [u64], &mut [u32], &mut [u64]) -> Result<(), Refusal>>(
    system: &DenseSystem,
    said: Said,
    found: &[u64],
    eliminate: F,
) -> bool
    requires { F.IsAlwaysCallable eliminate }
{
    let room = dense_room(system);
    let mut cells = [0u64; 1024];
    each_way(
        &Way::ALL,
        room,
        said,
        &mut cells,
        |want, solution: &mut [u64], numbers: &mut [u32], words: &mut [u64]| {
            let answer = eliminate(system, solution, numbers, words);
            judged(&answer, want, room, solution, found, numbers, words)
        },
    )
}

// None where a list is broken.
fn verdict(bytes: &[u8]) -> Option<Verdict> {
    let mut lists = Lists::new(bytes);
    let mut sizes = [0u64; 3];
    let mut rows = [0u64; 1024];
    let mut constants = [0u64; 256];
    let mut list = [0u64; 8];
    let mut found = [0u64; 256];
    lists.load(&mut sizes)?;
    let i = lists.load(&mut rows)?;
    let j = lists.load(&mut constants)?;
    let k = lists.load(&mut list)?;
    let l = lists.load(&mut found)?;
    if !lists.at_end() {
        return None;
    }
    let system = DenseSystem {
        n: sizes[0] as usize,
        m: sizes[1] as usize,
        w: sizes[2] as usize,
        rows: &rows[..i],
        constants: &constants[..j],
    };
    let said = said_of(&list[..k]);
    let found = &found[..l];
    let agreed = dense_ways(&system, said, found, dense::dense_gaussian_elimination)
        && dense_ways(&system, said, found, slow_dense::slow_gaussian_elimination);
    Some(came_of(agreed, said))
}

pub fn dense_case(bytes: &[u8]) -> Verdict {
    verdict(bytes).unwrap_or(Verdict::Different)
}
