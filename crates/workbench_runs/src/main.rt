// The sums that the table of the workbench leaves, and long seeded runs: each call held to the others, and what came of it counted.
#![tactic(auto)]

mod print;
mod runs;
mod sums;

use bench_checks::tally::Tally;
use bench_draws::random::Random;

fn main(rt: HostRuntime) {
    sums::dense_sums(&rt);
    sums::crowds(&rt);
    let mut tally = Tally::new();
    let mut random = Random::new(88172645463325252);
    runs::systems(&mut tally, &mut random);
    runs::graphs(&mut tally, &mut random);
    print::counts(&rt, &tally);
}
