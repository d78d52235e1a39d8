// Answers and comparisons, counted.
ghost use Rattle.std.specs.Prelude.{◌≡◌, ◌≤◌, ◌<◌, ◌+◌, ◌*◌, slice_index, replicate};
ghost use Rattle.answers.specs.Answers.{answer_by};
ghost use Rattle.bench_checks.specs.Tally.{row_of, one_more, counted_in, held_to};

use answers::Numbered;

// What gave an answer.
#[derive(Clone, Copy, PartialEq, Debug)]
pub enum Caller {
    Sparse,
    Dense,
    Lazy,
    Check,
    High,
    Low,
    Lookup,
    Slow,
}

impl Caller {
    fn row(self) -> usize
        ensures value { result ≡ row_of self }
        ensures few { result < 8 }
    {
        match self {
            Caller::Sparse => 0,
            Caller::Dense => 1,
            Caller::Lazy => 2,
            Caller::Check => 3,
            Caller::High => 4,
            Caller::Low => 5,
            Caller::Lookup => 6,
            Caller::Slow => 7,
        }
    }
}

// How often each caller gave each number, then the comparisons made, and those that found a difference.
#[derive(Drop)]
pub struct Tally {
    pub counts: [u64; 90],
}

// The columns of a caller: the answers' numbers, 0 to 10.
pub const NUMBERS: usize = 11;

const COMPARED: usize = 88;

const DIFFERENT: usize = 89;

impl Tally {
    pub fn new() -> Tally
        ensures { result.counts ≡ replicate 90 0 }
    {
        Tally { counts: [0; 90] }
    }

    #[tactic(auto, unfolding(crate::specs::Tally::one_more))]
    fn add_one(&mut self, k: usize)
        requires { k < 90 }
        ensures { self.new.counts ≡ one_more k self.old.counts }
    {
        self.counts[k] = self.counts[k].wrapping_add(1);
    }

    // Counts an answer.
    pub fn count<T, E: Numbered>(&mut self, caller: Caller, answer: &Result<T, E>)
        ensures { self.new.counts ≡ counted_in (row_of caller) (answer_by E.answer answer.now) self.old.counts }
    {
        self.add_one(caller.row() * NUMBERS + answers::number(answer) as usize);
    }

    // Counts a comparison, and whether it found what it should.
    pub fn hold(&mut self, good: bool)
        ensures { self.new.counts ≡ held_to good self.old.counts }
    {
        self.add_one(COMPARED);
        if !good {
            self.add_one(DIFFERENT);
        }
    }

    // How often the caller gave the number.
    pub fn times(&self, caller: Caller, number: usize) -> u64
        requires { number < 11 }
        ensures { result ≡ slice_index self.now.counts (row_of caller * 11 + number) }
    {
        self.counts[caller.row() * NUMBERS + number]
    }

    pub fn compared(&self) -> u64
        ensures { result ≡ slice_index self.now.counts 88 }
    {
        self.counts[COMPARED]
    }

    pub fn different(&self) -> u64
        ensures { result ≡ slice_index self.now.counts 89 }
    {
        self.counts[DIFFERENT]
    }
}
