// What came of the runs, line by line; a line that cannot be written is passed over.
use bench_checks::tally::{Caller, NUMBERS, Tally};

// The answers of one caller, where there is something to tell.
fn caller_lines(rt: &impl Print, tally: &Tally, caller: Caller, name: &str) {
    for number in 0..NUMBERS {
        let times = tally.times(caller, number);
        if times != 0 {
            let _ = println!(rt; "{name} {number}: {times}");
        }
    }
}

pub fn counts(rt: &impl Print, tally: &Tally) {
    caller_lines(rt, tally, Caller::Sparse, "sparse");
    caller_lines(rt, tally, Caller::Dense, "dense");
    caller_lines(rt, tally, Caller::Slow, "slow");
    caller_lines(rt, tally, Caller::Lazy, "lazy");
    caller_lines(rt, tally, Caller::Check, "check");
    caller_lines(rt, tally, Caller::High, "peel, high");
    caller_lines(rt, tally, Caller::Low, "peel, low");
    caller_lines(rt, tally, Caller::Lookup, "lookup");
    let compared = tally.compared();
    let different = tally.different();
    let _ = println!(rt; "comparisons: {compared}");
    let _ = println!(rt; "disagreements: {different}");
}
