// Equations of priority 1: solved for their one idle variable.
ghost use Rattle.std.specs.Prelude.{◌≡◌, List, ℕ, false, MatchOption};
ghost use Rattle.gf2.specs.Equation.{Each, Equation};
ghost use Rattle.gf2.specs.ByNumber.{row_of};
ghost use Rattle.gf2.specs.Common.{common};
ghost use Rattle.areas.specs.Stretch.{stretch};
ghost use Rattle.lazy.specs.Cancelled.{added_cancels};
ghost use Rattle.lazy.specs.Lazy.{State, others, solve_for};
ghost use Rattle.lazy.specs.Safe.{pivot_of};
ghost use Rattle.lazy_pops.specs.Idle.{RowFits, marked, first_marked};
ghost use Rattle.lazy_pops.specs.Adding.{add_one, AddAt, AddReady, AddDone, AddsAt, AddsReady, OthersAt, OthersReady};
ghost use Rattle.lazy_pops.specs.Laid.{Laid};
ghost use Rattle.lazy_pops.specs.Pops.{EquationAt, SolveReady, SolveDone};
ghost use Rattle.lazy_pops.specs.Writes.{add_to, weightless, recorded, SolvedAt, SolvedReady};

use crate::variables::lower_listed;
use lazy_setup::{Layout, Stand};
use rows::Counted;

// The first idle variable of the `count` from `row` on.
fn first_idle(numbers: &[u32], layout: Layout, row: usize, count: usize) -> Option<u32>
    requires { RowFits numbers.now row count layout.idle }
    ensures { MatchOption result (Each (λ v. marked numbers.now layout.idle v ≡ false) (stretch row count numbers.now))
        (λ v. v ≡ first_marked numbers.now row count layout.idle) }
{
    for v in &numbers[row..row + count] {
        if numbers[layout.idle + *v as usize] != 0 {
            return Some(*v);
        }
    }
    None
}

// Equation e is added into equation f. Returns how many variables both had: each of them is missing twice in the sum's length.
fn add_row(numbers: &mut [u32], words: &mut [u64], layout: Layout, f: usize, e: usize) -> usize
    requires { AddReady layout.n layout.m layout f e numbers.old words.old }
    ensures add_done { (sys : List Equation) (s : State) → AddAt layout.n layout.m layout sys s f e numbers.old words.old
        → AddDone layout.n layout.m layout sys (add_one f e s) numbers.new words.new }
    ensures value { (sys : List Equation) (s : State) → AddAt layout.n layout.m layout sys s f e numbers.old words.old
        → result ≡ common (row_of s.rows f).vars (row_of s.rows e).vars }
{
    let Layout { n, lengths, .. } = layout;
    let scratch = layout.dense + layout.m * n;
    let lf = numbers[lengths + f] as usize;
    let le = numbers[lengths + e] as usize;
    let len = row_sums::add_into(numbers, n, f * n, lf, e * n, le, scratch);
    numbers[lengths + f] = len as u32;
    words[f] ^= words[e];
    (lf + le - len) / 2
}

// Equation e is added into each of the `count` equations from `list` on, but for itself. Returns how many variables cancelled.
fn add_listed(
    numbers: &mut [u32],
    words: &mut [u64],
    layout: Layout,
    list: usize,
    count: usize,
    e: usize,
) -> u64
    requires { AddsReady layout.n layout.m layout list count e numbers.old words.old }
    ensures add_done { (sys : List Equation) (s : State) (v : ℕ)
        → AddsAt layout.n layout.m layout sys s v list count e numbers.old words.old
        → AddDone layout.n layout.m layout sys (add_to (others sys v e) e s) numbers.new words.new }
    ensures value { (sys : List Equation) (s : State) (v : ℕ)
        → AddsAt layout.n layout.m layout sys s v list count e numbers.old words.old
        → result ≡ added_cancels (others sys v e) e s.rows }
{
    let mut cancelled = 0u64;
    for k in 0..count {
        let f = numbers[list + k] as usize;
        if f != e {
            cancelled += add_row(numbers, words, layout, f, e) as u64;
        }
    }
    cancelled
}

// Equation e is added into the other equations that listed v at the start, in equation order.
fn add_to_others(numbers: &mut [u32], words: &mut [u64], layout: Layout, v: usize, e: usize) -> u64
    requires { OthersReady layout.n layout.m layout v e numbers.old words.old }
    ensures add_done { (sys : List Equation) (s : State) → OthersAt layout.n layout.m layout sys s v e numbers.old words.old
        → AddDone layout.n layout.m layout sys (add_to (others sys v e) e s) numbers.new words.new }
    ensures value { (sys : List Equation) (s : State) → OthersAt layout.n layout.m layout sys s v e numbers.old words.old
        → result ≡ added_cancels (others sys v e) e s.rows }
{
    let first = layout.starts + v;
    let from = numbers[first] as usize;
    let to = numbers[first + 1] as usize;
    add_listed(numbers, words, layout, layout.lists + from, to - from, e)
}

// Equation e, the k-th that is solved, has solved v: both are recorded, and the weight of v is 0 from here on.
fn record_solved(numbers: &mut [u32], layout: Layout, k: usize, e: u32, v: u32)
    requires { SolvedReady layout k v numbers.old }
    ensures { (n m : ℕ) (sys : List Equation) (s : State) → SolvedAt n m layout sys s k v numbers.old
        → Laid n m layout sys (weightless v (recorded e v s)) numbers.new }
{
    numbers[layout.solved + k] = e;
    numbers[layout.pivots + k] = v;
    numbers[layout.weight + v as usize] = 0;
}

// Equation e was popped, and its priority is 1: it solves its one idle variable.
pub fn solve_for(
    numbers: &mut [u32],
    words: &mut [u64],
    layout: Layout,
    stand: Stand,
    e: u32,
) -> Counted<Stand>
    requires { SolveReady layout.n layout.m layout stand e numbers.old words.old }
    ensures solve_done { (sys : List Equation) (s : State) (es : List ℕ)
        → EquationAt layout.n layout.m layout sys s e es 1 stand numbers.old words.old
        → SolveDone layout.n layout.m layout sys (solve_for sys (pivot_of s e) e es s) result.end numbers.new words.new }
    ensures cancelled_value { (sys : List Equation) (s : State) (es : List ℕ)
        → EquationAt layout.n layout.m layout sys s e es 1 stand numbers.old words.old
        → result.cancelled ≡ added_cancels (others sys (pivot_of s e) e) e s.rows }
{
    let row = e as usize;
    let len = numbers[layout.lengths + row] as usize;
    let v = first_idle(numbers, layout, row * layout.n, len).unwrap();
    record_solved(numbers, layout, stand.solved, e, v);
    let cancelled = add_to_others(numbers, words, layout, v as usize, row);
    let equations = lower_listed(numbers, layout, v as usize, row, stand.equations);
    let end = Stand {
        equations,
        solved: stand.solved + 1,
        ..stand
    };
    Counted { end, cancelled }
}
