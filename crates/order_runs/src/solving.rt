// One list of equations by each solver.
ghost use Rattle.std.specs.Prelude.{◌≤◌};

use crate::listing::list_rows;
use crate::orders::Equations;
use answers::Refusal;
use dense::dense_gaussian_elimination;
use dense_rows::DenseSystem;
use lazy_calls::lazy_gaussian_elimination;
use slow_dense::slow_gaussian_elimination;
use sparse::gaussian_elimination;
use system::System;

// What a solver came to; where it gave no table, x is as it was lent.
#[derive(Clone, Copy)]
pub struct Came {
    pub answer: Result<(), Refusal>,
    pub x: [u64; 80],
}

#[derive(Clone, Copy)]
pub struct ByEach {
    pub sparse: Came,
    pub dense: Came,
    pub slow: Came,
    pub lazy: Came,
}

// A solver on a solution of its own, in the same work areas as the others.
fn by<F>(n: usize, numbers: &mut [u32], words: &mut [u64], solve: F) -> Came
where
    F: FnOnce(&mut [u64], &mut [u32], &mut [u64]) -> Result<(), Refusal>,
    requires callable { F.IsAlwaysCallable solve }
    requires few_variables { n ≤ 80 }
{
    let mut x = [0u64; 80];
    let answer = solve(&mut x[..n], numbers, words);
    Came { answer, x }
}

// Both forms of one system by the four solvers, one after the other.
fn by_all(system: &System, rows: &DenseSystem, numbers: &mut [u32], words: &mut [u64]) -> ByEach
    requires { system.now.n ≤ 80 }
{
    let n = system.n;
    let sparse = by(n, numbers, words, |x, numbers, words| {
        gaussian_elimination(system, x, numbers, words).answer
    });
    let dense = by(n, numbers, words, |x, numbers, words| {
        dense_gaussian_elimination(rows, x, numbers, words)
    });
    let slow = by(n, numbers, words, |x, numbers, words| {
        slow_gaussian_elimination(rows, x, numbers, words)
    });
    let lazy = by(n, numbers, words, |x, numbers, words| {
        lazy_gaussian_elimination(system, x, numbers, words).answer
    });
    ByEach {
        sparse,
        dense,
        slow,
        lazy,
    }
}

// Lent what lazy elimination or dense rows ask for at most.
pub fn solve(equations: &Equations) -> ByEach {
    let mut starts = [0u32; 62];
    let mut vars = [0u32; 4880];
    let mut numbers = [0u32; 15549];
    let mut words = [0u64; 183];
    let t = list_rows(equations, &mut starts, &mut vars);
    let (n, m) = (equations.n, equations.m);
    let constants = &equations.constants[..m];
    let system = System {
        n,
        m,
        starts: &starts[..m + 1],
        vars: &vars[..t],
        constants,
    };
    let rows = DenseSystem {
        n,
        m,
        w: 2,
        rows: &equations.rows,
        constants,
    };
    by_all(&system, &rows, &mut numbers, &mut words)
}
