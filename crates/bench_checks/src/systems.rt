// The four solvers on one system.
ghost use Rattle.std.specs.Prelude.{◌^◌, ◌≤◌, ◌<◌, length};

use crate::tally::{Caller, Tally};
use answers::{Refusal, number};
use dense_rows::DenseSystem;
use lent_cells::cells::{left, mark};
use system::System;

// How many cells of each work area a solver asks for.
#[derive(Clone, Copy)]
struct Room {
    numbers: usize,
    words: usize,
}

// What a solver came to on memory of its own.
#[derive(Clone, Copy)]
pub struct Outcome {
    pub answer: Result<(), Refusal>,
    pub x: [u64; 130],
}

// The cells of a room that an answer leaves zero: a refusal before the run leaves them as lent.
fn zeroed(answer: Result<(), Refusal>, room: usize) -> usize {
    match answer {
        Ok(()) | Err(Refusal::Unsolvable) => room,
        Err(_) => 0,
    }
}

// A solution meets every equation.
fn checked(tally: &mut Tally, system: &System, solution: &[u64]) {
    let said = system_check::check(system, solution);
    if said == Ok(false) {
        tally.count(Caller::Check, &Err::<(), Refusal>(Refusal::Unsolvable));
    } else {
        tally.count(Caller::Check, &said);
    }
    tally.hold(said == Ok(true));
}

// Counts a solver's answer, and holds what it left to it; a solution is looked at only where there is one.
fn left_by(
    tally: &mut Tally,
    caller: Caller,
    system: &System,
    room: Room,
    answer: Result<(), Refusal>,
    solution: &[u64],
    numbers: &[u32],
    words: &[u64],
) {
    tally.count(caller, &answer);
    tally.hold(left(numbers, zeroed(answer, room.numbers)));
    tally.hold(left(words, zeroed(answer, room.words)));
    match answer {
        Ok(()) => checked(tally, system, solution),
        Err(_) => tally.hold(left(solution, 0)),
    }
}

// A solver on marked memory that is longer than its room: NUMBERS numbers and WORDS words.
fn solved<const NUMBERS: usize, const WORDS: usize, F>(
    tally: &mut Tally,
    caller: Caller,
    system: &System,
    room: Room,
    solve: F,
) -> Outcome
where
    F: FnOnce(&mut [u64], &mut [u32], &mut [u64]) -> Result<(), Refusal>,
    requires callable { F.IsAlwaysCallable solve }
    requires few_variables { system.now.n ≤ 130 }
    requires lengths { (NUMBERS < 2 ^ 60) × (WORDS < 2 ^ 60) }
{
    let mut x = [0u64; 130];
    let mut numbers = [0u32; NUMBERS];
    let mut words = [0u64; WORDS];
    let solution = &mut x[..system.n];
    mark(solution);
    mark(&mut numbers);
    mark(&mut words);
    let answer = solve(solution, &mut numbers, &mut words);
    left_by(
        tally, caller, system, room, answer, solution, &numbers, &words,
    );
    Outcome { answer, x }
}

// One answer of two solvers, and one solution.
fn alike(tally: &mut Tally, a: &Outcome, b: &Outcome) {
    tally.hold(number(&a.answer) == number(&b.answer));
    tally.hold(a.x == b.x);
}

// One system by all four: one answer, one solution of sparse and both dense engines, every solution checked, and a planted system solved.
pub fn compare(tally: &mut Tally, planted: bool, system: &System, rows: &DenseSystem)
    requires shape { (system.now.n ≤ 130) × (system.now.m ≤ 130) × (length system.now.vars.now ≤ 1024) }
    requires rows { (rows.now.m ≤ 130) × (rows.now.w ≤ 3) }
{
    let (n, m, w) = (system.n, system.m, rows.w);
    let by_rows = Room {
        numbers: m,
        words: answers::dense_words(rows.m, w),
    };
    let sparse = Room {
        numbers: answers::sparse_numbers(n, m),
        words: m,
    };
    let lazy = Room {
        numbers: answers::lazy_numbers(n, m, system.vars.len()),
        words: answers::lazy_words(m),
    };
    let s = solved::<17400, 140, _>(tally, Caller::Sparse, system, sparse, |x, numbers, words| {
        sparse::gaussian_elimination(system, x, numbers, words).answer
    });
    let d = solved::<140, 600, _>(tally, Caller::Dense, system, by_rows, |x, numbers, words| {
        dense::dense_gaussian_elimination(rows, x, numbers, words)
    });
    let o = solved::<140, 600, _>(tally, Caller::Slow, system, by_rows, |x, numbers, words| {
        slow_dense::slow_gaussian_elimination(rows, x, numbers, words)
    });
    let l = solved::<37000, 300, _>(tally, Caller::Lazy, system, lazy, |x, numbers, words| {
        lazy_calls::lazy_gaussian_elimination(system, x, numbers, words).answer
    });
    alike(tally, &s, &d);
    alike(tally, &d, &o);
    tally.hold(number(&s.answer) == number(&l.answer));
    tally.hold(!planted || s.answer == Ok(()));
}
