// What was seen beside the comparisons, and the lines that tell all of it; a line that cannot be written is passed over.
use bench_checks::tally::{Caller, Tally};

#[derive(Drop, Default)]
pub struct Seen {
    // Systems drawn.
    pub drawn: u64,
    // Lists in which an equation has moved.
    pub moved: u64,
    // Systems whose lazy table is not that of sparse and dense.
    pub lazy_apart: u64,
    // Orders, and lists with an equation twice, that change the lazy table of their system.
    pub lazy_ordered: u64,
    pub lazy_twice: u64,
}

// One more, where there is something to count.
pub fn count_if(count: &mut u64, yes: bool) {
    *count = count.wrapping_add(u64::from(yes));
}

// How often a caller found a system to be solvable, and how often not.
fn caller_lines(rt: &impl Print, tally: &Tally, caller: Caller, name: &str) {
    for number in [0, 6] {
        let times = tally.times(caller, number);
        let _ = println!(rt; "{name} {number}: {times}");
    }
}

fn tally_lines(rt: &impl Print, tally: &Tally) {
    caller_lines(rt, tally, Caller::Sparse, "sparse");
    caller_lines(rt, tally, Caller::Dense, "dense");
    caller_lines(rt, tally, Caller::Slow, "slow");
    let compared = tally.compared();
    let different = tally.different();
    let _ = println!(rt; "comparisons: {compared}");
    let _ = println!(rt; "disagreements: {different}");
}

fn seen_lines(rt: &impl Print, seen: &Seen) {
    let _ = println!(rt; "lists in which an equation has moved: {}", seen.moved);
    let _ = println!(rt; "systems with another lazy table: {}", seen.lazy_apart);
    let _ = println!(rt; "orders that change the lazy table: {}", seen.lazy_ordered);
    let _ = println!(rt;
        "lists with an equation twice that change it: {}",
        seen.lazy_twice
    );
}

pub fn lines(rt: &impl Print, tally: &Tally, seen: &Seen) {
    let _ = println!(rt; "systems: {}", seen.drawn);
    tally_lines(rt, tally);
    seen_lines(rt, seen);
}
