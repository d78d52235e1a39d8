// What is refused before the run.
ghost use Rattle.std.specs.Prelude.{◌≡◌, ◌<◌, length, MatchOption};
ghost use Rattle.peel_rules.specs.Edges.{is_valid, bad_edge};
ghost use Rattle.peel_gates.specs.Gates.{gate_of, gate_by};

use crate::rooms::Memory;
use answers::{MAX_EQUATIONS, MAX_VARIABLES, Refusal};
use peeling::numbers::Edge;

// Whether the vertices of an edge are different and below n.
pub fn keeps_rule(n: usize, e: Edge) -> bool
    ensures { result ≡ is_valid n e }
{
    let a = e.a.0 as usize;
    let b = e.b.0 as usize;
    let c = e.c.0 as usize;
    let below = a < n && b < n && c < n;
    let apart = a != b && a != c && b != c;
    below && apart
}

// The lowest edge that breaks its rule.
pub fn bad_edge(n: usize, edges: &[Edge]) -> Option<usize>
    ensures { MatchOption result (bad_edge n edges.now ≡ length edges.now) (λ i. (bad_edge n edges.now ≡ i) × (i < length edges.now)) }
{
    edges.iter().position(|e| !keeps_rule(n, *e))
}

// Tries the refusals 1, 3, 4 and 5: `cells`, `numbers` and `bytes` are the lengths that are lent, `bad` is the lowest edge that breaks its rule, m where there is none.
pub fn judge<M: Memory>(
    n: usize,
    m: usize,
    bad: usize,
    cells: usize,
    numbers: usize,
    bytes: usize,
) -> Result<(), Refusal>
    ensures { gate_by result ≡ gate_of M.high n m bad cells numbers bytes }
{
    if MAX_VARIABLES < n || MAX_EQUATIONS < m {
        return Err(Refusal::TooLarge);
    }
    if bad < m {
        return Err(Refusal::BadEntry(bad));
    }
    if cells != n {
        return Err(Refusal::WrongSolution);
    }
    if numbers < M::numbers_room(n, m) || bytes < M::bytes_room(n, m) {
        return Err(Refusal::ShortArea);
    }
    Ok(())
}

// The same of what is lent.
pub fn judge_lent<M: Memory>(
    n: usize,
    edges: &[Edge],
    solution: &[u64],
    numbers: &[u32],
    bytes: &[u8],
) -> Result<(), Refusal>
    ensures { gate_by result ≡ gate_of M.high n (length edges.now) (bad_edge n edges.now) (length solution.now) (length numbers.now) (length bytes.now) }
{
    let m = edges.len();
    let bad = bad_edge(n, edges).unwrap_or(m);
    judge::<M>(n, m, bad, solution.len(), numbers.len(), bytes.len())
}
