// Seeded systems, each in several orders and with an equation listed twice: sparse and dense must come to one answer and one table.
#![tactic(auto)]

mod counts;
mod listing;
mod orders;
mod runs;
mod solving;

use runs::Runs;

fn main(rt: HostRuntime) {
    let mut runs = Runs::new(88172645463325252);
    runs.systems();
    counts::lines(&rt, &runs.tally, &runs.seen);
}
