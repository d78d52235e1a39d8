// Seeded systems, each list of their equations by all solvers.
ghost use Rattle.std.specs.Prelude.{◌≡◌, ◌≤◌};

use crate::counts::{Seen, count_if};
use crate::orders::Equations;
use crate::solving::{ByEach, Came, solve};
use answers::Refusal;
use bench_checks::tally::{Caller, Tally};
use bench_draws::equations::{Shape, draw_equations, draw_values, spoil};
use bench_draws::random::Random;

// Every number of variables from 1 to 80, four times.
const SYSTEMS: usize = 320;
// Orders of each system besides the one that was drawn.
const ORDERS: usize = 4;

// m equations of at most six variables that some values meet, or one of which is spoilt.
fn draw(random: &mut Random, n: usize, m: usize) -> Equations
    requires { (n ≤ 80) × (m ≤ 60) }
    ensures { result.m ≡ m }
{
    let mut values = [0u64; 80];
    let mut starts = [0u32; 61];
    let mut vars = [0u32; 360];
    let mut constants = [0u64; 61];
    let mut rows = [0u64; 122];
    draw_values(random, 16, &mut values);
    let shape = Shape {
        shortest: 0,
        longest: (1 + random.below(6)).min(n),
        row_words: 2,
    };
    draw_equations(
        random,
        shape,
        &values[..n],
        &mut starts,
        &mut vars,
        &mut constants[..m],
        &mut rows,
    );
    if random.below(3) == 0 {
        spoil(random, &mut constants[..m]);
    }
    Equations {
        n,
        m,
        rows,
        constants,
    }
}

// The call was not refused before its run.
fn ran(answer: Result<(), Refusal>) -> bool {
    matches!(answer, Ok(()) | Err(Refusal::Unsolvable))
}

// What is drawn from, and what has been counted.
#[derive(Drop)]
pub struct Runs {
    random: Random,
    pub tally: Tally,
    pub seen: Seen,
}

impl Runs {
    pub fn new(seed: u64) -> Runs {
        Runs {
            random: Random::new(seed),
            tally: Tally::new(),
            seen: Seen::default(),
        }
    }

    // Counts an answer, which must be one of a run.
    fn counted(&mut self, caller: Caller, answer: Result<(), Refusal>) {
        self.tally.count(caller, &answer);
        self.tally.hold(ran(answer));
    }

    // Counts an answer, and holds it and its table to the first that sparse gave.
    fn held(&mut self, caller: Caller, first: &Came, found: &Came) {
        self.counted(caller, found.answer);
        self.tally.hold(found.answer == first.answer);
        self.tally.hold(found.x == first.x);
    }

    // The list that was drawn: both dense engines are held to sparse.
    fn drawn_first(&mut self, first: &ByEach) {
        self.counted(Caller::Sparse, first.sparse.answer);
        self.held(Caller::Dense, &first.sparse, &first.dense);
        self.held(Caller::Slow, &first.sparse, &first.slow);
        count_if(&mut self.seen.drawn, true);
        count_if(&mut self.seen.lazy_apart, first.lazy.x != first.sparse.x);
    }

    // Sparse and both dense engines are held to the first list; hands back whether lazy gave another table.
    fn compared(&mut self, first: &ByEach, again: &ByEach) -> bool {
        self.held(Caller::Sparse, &first.sparse, &again.sparse);
        self.held(Caller::Dense, &first.sparse, &again.dense);
        self.held(Caller::Slow, &first.sparse, &again.slow);
        again.lazy.x != first.lazy.x
    }

    // The equations in another order; hands back whether lazy gave another table.
    fn reordered(&mut self, equations: &mut Equations, first: &ByEach) -> bool
        ensures { equations.new.m ≡ equations.old.m }
    {
        let before = equations.rows;
        equations.shuffle(&mut self.random);
        count_if(&mut self.seen.moved, equations.rows != before);
        self.compared(first, &solve(equations))
    }

    // A list as it is drawn, in other orders, and then with one of its equations twice.
    fn system(&mut self, n: usize, m: usize)
        requires { (n ≤ 80) × (m ≤ 60) }
    {
        let mut equations = draw(&mut self.random, n, m);
        let first = solve(&equations);
        self.drawn_first(&first);
        for _order in 0..ORDERS {
            let changed = self.reordered(&mut equations, &first);
            count_if(&mut self.seen.lazy_ordered, changed);
        }
        equations.repeat(&mut self.random);
        let changed = self.reordered(&mut equations, &first);
        count_if(&mut self.seen.lazy_twice, changed);
    }

    pub fn systems(&mut self) {
        for k in 0..SYSTEMS {
            let m = self.random.below(61);
            self.system(1 + k % 80, m);
        }
    }
}
