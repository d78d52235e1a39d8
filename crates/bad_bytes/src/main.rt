// Every change of a single byte, and every truncation, of two small link files: each is answered, and where the form alone decides, as the form says.
#![tactic(auto)]

mod asks;
mod counts;
mod files;

use counts::Tally;
use files::{LAZY_FILE, PEEL_FILE, changes, truncations};

fn main(rt: HostRuntime) {
    let mut lazy = Tally::default();
    changes(&mut lazy, &LAZY_FILE);
    lazy.tell(&rt, "a byte changed, kind 2");
    let mut peel = Tally::default();
    changes(&mut peel, &PEEL_FILE);
    peel.tell(&rt, "a byte changed, kind 3");
    let mut cut = Tally::default();
    truncations(&mut cut, &LAZY_FILE);
    truncations(&mut cut, &PEEL_FILE);
    cut.tell(&rt, "cut short");
}
