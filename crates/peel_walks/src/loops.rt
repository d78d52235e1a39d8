// The loops over a table whose edges keep their rule: the graph's making, the peeling, and the filling.
// The table and its n stay two parameters, here and above: a struct of both would make each clause name `table.now.edges.now` for `edges.now`.
ghost use Rattle.std.specs.Prelude.{◌≡◌, ℕ, length};
ghost use Rattle.gf2.specs.Equation.{Each};
ghost use Rattle.peeling.specs.Graph.{graph_of};
ghost use Rattle.peel_rules.specs.Edges.{Valid};
ghost use Rattle.peel_rules.specs.Peel.{fill};
ghost use Rattle.peel_rules.specs.Machine.{build, crowd_of};
ghost use Rattle.peel_steps.specs.Lowest.{vertex_or};
ghost use Rattle.peel_steps.specs.Pictures.{peeled_in};
ghost use Rattle.peel_walks.specs.Walks.{Room, PeelStarts, PeelsFrom, PeelEnds, Fillable};

use peel_steps::building::add_edge;
use peel_steps::filling::fill_one;
use peel_turns::record::Record;
use peel_turns::visiting::{Heads, next_edge, turn_on};
use peeling::numbers::{Edge, Vertex};

// Takes every edge into the graph; hands back the lowest vertex that came to its 64th incidence.
pub fn add_edges(edges: &[Edge], numbers: &mut [u32], bytes: &mut [u8]) -> Option<Vertex>
    requires { Room edges.now numbers.old bytes.old }
    ensures lowest { (n : ℕ) → Each (Valid n) edges.now → vertex_or n result ≡ crowd_of 0 edges.now (graph_of numbers.old bytes.old) n }
    ensures graph { graph_of numbers.new bytes.new ≡ build 0 edges.now (graph_of numbers.old bytes.old) }
{
    let mut low = None;
    for (i, e) in edges.iter().enumerate() {
        low = add_edge(numbers, bytes, i, *e, low);
    }
    low
}

// Peels until the stack is empty; hands back how many edges were peeled. `first.next` is not read.
#[tactic(auto, using(crate::proofs::FromLaws::starts_tops, crate::proofs::FromLaws::first_read))]
pub fn peel<M: Record>(
    edges: &[Edge],
    n: usize,
    first: Heads,
    numbers: &mut [u32],
    bytes: &mut [u8],
) -> usize
    requires { PeelStarts M.high n edges.now numbers.old bytes.old first }
    ensures { PeelEnds M.high n edges.now numbers.old bytes.old numbers.new bytes.new result }
{
    let next = next_edge(n, first.stack, numbers, bytes);
    peel_from::<M>(edges, n, Heads { next, ..first }, numbers, bytes)
}

// The same, where `first` says which edge is read first.
pub fn peel_from<M: Record>(
    edges: &[Edge],
    n: usize,
    first: Heads,
    numbers: &mut [u32],
    bytes: &mut [u8],
) -> usize
    requires { PeelsFrom M.high n edges.now numbers.old bytes.old first }
    ensures { PeelEnds M.high n edges.now numbers.old bytes.old numbers.new bytes.new result }
{
    let mut h = first;
    // No `for`: the turns say how many there are.
    while 0 < h.stack {
        h = turn_on::<M>(n, h, edges[h.next], numbers, bytes);
    }
    h.peeled
}

// Fills the cells of the first `count` peeled edges, from the one peeled last to the first.
pub fn assign<M: Record>(
    edges: &[Edge],
    n: usize,
    count: usize,
    solution: &mut [u64],
    numbers: &[u32],
    bytes: &[u8],
)
    requires { Fillable M.high n edges.now count (length solution.old) numbers.now bytes.now }
    ensures { solution.new ≡ fill (peeled_in M.high edges.now n count numbers.now bytes.now) solution.old }
{
    for k in (0..count).rev() {
        let at = M::peeled_at(n, k, numbers, bytes);
        fill_one(solution, edges[at.edge.0 as usize], at.side);
    }
}
