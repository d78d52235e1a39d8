// Crowds and cores of a list of edges, counted edge by edge: slow, and with nothing of the graph or its stack.
ghost use Rattle.std.specs.Prelude.{◌≡◌, ◌≤◌, ◌<◌, length, IfSome, unwrap_or};
ghost use Rattle.peel_rules.specs.Core.{pick};
ghost use Rattle.peel_rules.specs.Edges.{degree, touches};
ghost use Rattle.peel_rules.specs.Peel.{crowded_vertex};
ghost use Rattle.bench_cores.specs.Counted.{hangs_by, OneStrip, Strips, OutsideCore};

use peeling::numbers::{Edge, Vertex};

#[tactic(auto, unfolding(peel_rules::specs::Edges::touches))]
fn touches(e: Edge, v: Vertex) -> bool
    ensures { result ≡ touches v.0 e }
{
    v.0 == e.a.0 || v.0 == e.b.0 || v.0 == e.c.0
}

// How many of the edges that are alive touch the vertex.
fn degree(edges: &[Edge], alive: &[bool], v: Vertex) -> usize
    ensures { result ≡ degree v.0 (pick alive.now edges.now) }
{
    edges
        .iter()
        .zip(alive)
        .filter(|(_, alive)| **alive)
        .filter(|(e, _)| touches(**e, v))
        .count()
}

// The lowest vertex below n that 64 edges or more touch.
pub fn crowded(edges: &[Edge], n: usize) -> Option<usize>
    requires { (length edges.now ≤ 256) × (n ≤ 16384) }
    ensures lowest { unwrap_or result n ≡ crowded_vertex n edges.now }
    ensures within { IfSome result (λ v. v < n) }
{
    let alive = [true; 256];
    let alive = &alive[..edges.len()];
    (0..n).find(|v| 64 <= degree(edges, alive, Vertex(*v as u32)))
}

// Whether the edge is the only one alive at one of its vertices.
#[tactic(auto, unfolding(crate::specs::Counted::hangs_by))]
fn hangs(edges: &[Edge], alive: &[bool], e: Edge) -> bool
    ensures { result ≡ hangs_by e (pick alive.now edges.now) }
{
    degree(edges, alive, e.a) == 1
        || degree(edges, alive, e.b) == 1
        || degree(edges, alive, e.c) == 1
}

// Takes edge i away if it hangs by a vertex; hands back whether it did.
fn strip_one(edges: &[Edge], alive: &mut [bool], i: usize) -> bool
    requires { (i < length edges.now) × (length alive.old ≡ length edges.now) }
    ensures { OneStrip edges.now i alive.old alive.new result }
{
    if alive[i] && hangs(edges, alive, edges[i]) {
        alive[i] = false;
        return true;
    }
    false
}

// Goes through the edges once; hands back how many it took away.
fn strip(edges: &[Edge], alive: &mut [bool]) -> usize
    requires { length alive.old ≡ length edges.now }
    ensures few { result ≤ length edges.now }
    ensures stripped { Strips edges.now alive.old alive.new result }
{
    let mut gone = 0;
    for i in 0..edges.len() {
        if strip_one(edges, alive, i) {
            gone += 1;
        }
    }
    gone
}

// How many edges lie outside the core; as many rounds as edges are enough, since each but the last takes one away.
pub fn outside_core(edges: &[Edge]) -> usize
    requires { length edges.now ≤ 256 }
    ensures { OutsideCore edges.now result }
{
    let mut table = [true; 256];
    let alive = &mut table[..edges.len()];
    let mut outside = 0;
    for _round in 0..edges.len() {
        let gone = strip(edges, alive);
        if gone == 0 {
            return outside;
        }
        outside += gone;
    }
    outside
}
