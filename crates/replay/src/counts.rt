// How many cases came to what.
use crate::kinds::{Kind, UnknownKind};
use replay_cases::said::Verdict;
use std::fmt;
use std::ops::Add;

#[derive(Clone, Copy, PartialEq, Debug, Default)]
pub struct Tally {
    same: u64,
    refused: u64,
    departed: u64,
    different: u64,
}

impl Tally {
    fn count(&mut self, verdict: Verdict) {
        match verdict {
            Verdict::Same => self.same = self.same.wrapping_add(1),
            Verdict::Refused => self.refused = self.refused.wrapping_add(1),
            Verdict::Departed => self.departed = self.departed.wrapping_add(1),
            Verdict::Different => self.different = self.different.wrapping_add(1),
        }
    }
}

impl Add for Tally {
    type Output = Tally;

    fn add(self, other: Tally) -> Tally {
        Tally {
            same: self.same.wrapping_add(other.same),
            refused: self.refused.wrapping_add(other.refused),
            departed: self.departed.wrapping_add(other.departed),
            different: self.different.wrapping_add(other.different),
        }
    }
}

impl fmt::Display for Tally {
    fn fmt<W: fmt::Write>(&self, f: &mut fmt::Formatter<W>) -> fmt::Result {
        let same = self.same;
        let refused = self.refused;
        let departed = self.departed;
        let different = self.different;
        write!(
            f,
            "{same} answered as the Rust did, {refused} refused where it panics, {departed} refused where it answers, {different} different"
        )
    }
}

// A tally for each kind, and one for every other byte.
#[derive(Drop)]
pub struct Counts {
    kinds: [Tally; 10],
    unknown: Tally,
}

impl Counts {
    pub fn new() -> Counts {
        let none = Tally::default();
        Counts {
            kinds: [none; 10],
            unknown: none,
        }
    }

    pub fn count(&mut self, kind: Result<Kind, UnknownKind>, verdict: Verdict) {
        match kind {
            Ok(kind) => self.kinds[kind as usize].count(verdict),
            Err(_) => self.unknown.count(verdict),
        }
    }

    // A line that cannot be written is passed over.
    pub fn tell(&self, rt: &impl Print) {
        for kind in Kind::ALL {
            let tally = self.kinds[kind as usize];
            let _ = println!(rt; "{kind}: {tally}");
        }
        let all = self
            .kinds
            .iter()
            .fold(self.unknown, |sum, tally| sum + *tally);
        let _ = println!(rt; "in all: {all}");
    }
}
