// Replays the cases on standard input, and says how many were answered as the Rust answered them.
#![tactic(auto)]

mod cases;
mod counts;
mod kinds;

use counts::Counts;

fn main(rt: HostRuntime) {
    let mut counts = Counts::new();
    cases::replay_all(&mut rt.stdin(), &mut counts);
    counts.tell(&rt);
}
