// The work areas of lazy elimination, and how they are set up.
#![tactic(auto)]

mod lists;
mod load;
mod sort;
mod tally;

ghost use Rattle.std.specs.Prelude.{◌≡◌, List, ◌++◌, ℕ, ◌≤◌, length, drop, replicate};
ghost use Rattle.answers.specs.Sizes.{max_variables, max_equations, max_listed, lazy_numbers, lazy_words};
ghost use Rattle.system.specs.System.{equations};
ghost use Rattle.system.specs.Fits.{Fits};
ghost use Rattle.system.specs.Lent.{equations_in, FitsIn};
ghost use Rattle.lazy.specs.Lazy.{start};
ghost use Rattle.lazy_setup.specs.Area.{numbers_of, words_of};
ghost use Rattle.lazy_setup.specs.Layout.{layout_of, stand_of};

use system::System;

// The sizes of a build, and where each segment of its numbers begins; the rows begin at 0.
#[derive(Clone, Copy)]
pub struct Layout {
    // How many variables.
    pub n: usize,
    // How many equations.
    pub m: usize,
    pub lengths: usize,
    pub lists: usize,
    pub starts: usize,
    pub weight: usize,
    pub variables: usize,
    pub idle: usize,
    pub position: usize,
    pub priority: usize,
    pub equations: usize,
    pub solved: usize,
    pub pivots: usize,
    pub count: usize,
    pub dense: usize,
}

// How far the lists of a state reach: the cells past these are zero.
#[derive(Clone, Copy)]
pub struct Stand {
    pub variables: usize,
    pub equations: usize,
    pub solved: usize,
    pub dense: usize,
    pub remaining: usize,
    pub done: usize,
}

impl Layout {
    pub fn of(n: usize, m: usize, t: usize) -> Layout
        requires { (n ≤ max_variables) × (m ≤ max_equations) × (t ≤ max_listed) }
        ensures { result ≡ layout_of n m t }
    {
        let lengths = m * n;
        let lists = lengths + m;
        let starts = lists + t;
        let weight = starts + (n + 1);
        let variables = weight + n;
        let idle = variables + n;
        let position = idle + n;
        let priority = position + n;
        let equations = priority + m;
        let solved = equations + m;
        let pivots = solved + m;
        let count = pivots + m;
        let dense = count + (m + 1);
        Layout {
            n,
            m,
            lengths,
            lists,
            starts,
            weight,
            variables,
            idle,
            position,
            priority,
            equations,
            solved,
            pivots,
            count,
            dense,
        }
    }
}

// The numbers of the start, from a system that keeps its rules; the constants are not read. How many equations stand on the
// first list.
fn setup_numbers(system: &System, numbers: &mut [u32]) -> usize
    requires { let s = system.now in Fits s.n s.m s.starts.now s.vars.now (replicate s.m 0)
        × (lazy_numbers s.n s.m (length s.vars.now) ≤ length numbers.old) }
    ensures value { let s = system.now in (constants : List ℕ) → Fits s.n s.m s.starts.now s.vars.now constants
        → let es = equations s.m s.starts.now s.vars.now constants in result ≡ length (start s.n es).equations }
    ensures numbers_after { let s = system.now in (constants : List ℕ) → Fits s.n s.m s.starts.now s.vars.now constants
        → let es = equations s.m s.starts.now s.vars.now constants in
        numbers.new ≡ numbers_of s.n es (start s.n es) ++ drop (lazy_numbers s.n s.m (length s.vars.now)) numbers.old }
{
    let t = system.vars.len();
    areas::fill(numbers, 0, answers::lazy_numbers(system.n, system.m, t), 0);
    let at = Layout::of(system.n, system.m, t);
    load::load(system, numbers, at);
    lists::weigh(system.vars, numbers, at);
    lists::fill_lists(system, numbers, at);
    sort::sort_variables(numbers, at);
    load::first_list(numbers, at)
}

// The work areas of the start, from a system that keeps its rules: how far the lists reach.
pub fn setup(system: &System, numbers: &mut [u32], words: &mut [u64]) -> Stand
    requires { FitsIn system.now × (lazy_numbers system.now.n system.now.m (length system.now.vars.now) ≤ length numbers.old)
        × (lazy_words system.now.m ≤ length words.old) }
    ensures value { result ≡ stand_of (start system.now.n (equations_in system.now)) }
    ensures numbers_after { let n = system.now.n in let es = equations_in system.now in
        numbers.new ≡ numbers_of n es (start n es) ++ drop (lazy_numbers n system.now.m (length system.now.vars.now)) numbers.old }
    ensures words_after { let es = equations_in system.now in
        words.new ≡ words_of es (start system.now.n es) ++ drop (lazy_words system.now.m) words.old }
{
    areas::fill(words, 0, answers::lazy_words(system.m), 0);
    areas::copy(system.constants, words, 0);
    let first = setup_numbers(system, numbers);
    Stand {
        variables: system.n,
        equations: first,
        solved: 0,
        dense: 0,
        remaining: system.m,
        done: 0,
    }
}
