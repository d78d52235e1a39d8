// The numbers that a seed gives.
ghost use Rattle.std.specs.Prelude.{◌≡◌, ℕ, ◌<◌};
ghost use Rattle.bench_draws.specs.Draws.{next, below_of};

use std::marker::Model;

// Marsaglia's xorshift64: from a seed that is not 0 it never comes to 0. A contract sees the seed.
#[derive(Drop)]
pub struct Random {
    seed: u64,
}

impl Model for Random {
    ghost Value = { ℕ };

    ghost view = { λ r. r.seed };
}

impl Random {
    pub fn new(seed: u64) -> Random
        ensures { result ≡ seed }
    {
        Random { seed }
    }

    // The next number, which is the seed after it too.
    #[tactic(auto, unfolding(crate::specs::Draws::next))]
    pub fn next(&mut self) -> u64
        ensures drawn { result ≡ next self.old }
        ensures seed { self.new ≡ next self.old }
    {
        let a = self.seed ^ (self.seed << 13);
        let b = a ^ (a >> 7);
        self.seed = b ^ (b << 17);
        self.seed
    }

    // A number below `bound`, from the high bits, which are the better ones.
    pub fn below(&mut self, bound: usize) -> usize
        requires { 0 < bound }
        ensures drawn { result ≡ below_of bound self.old }
        ensures in_bound { result < bound }
        ensures seed { self.new ≡ next self.old }
    {
        let high = self.next() >> 16;
        (high % bound as u64) as usize
    }
}
