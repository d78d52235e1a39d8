// Edges that a seed gives.
ghost use Rattle.std.specs.Prelude.{◌≡◌, ◌+◌, ◌*◌, ◌%◌, ◌≤◌, ◌<◌, length};
ghost use Rattle.bench_draws.specs.Draws.{after, passing, edge_of, edges_of};

use crate::random::Random;
use peeling::numbers::{Edge, Vertex};

// The vertex `step` places past `a`, round n vertices.
fn vertex_past(a: usize, step: usize, n: usize) -> Vertex
    requires { (a < n) × (step < n) × (n ≤ 16384) }
    ensures { result ≡ record { 0 = (a + step) % n } }
{
    Vertex(((a + step) % n) as u32)
}

// The number `j` of those that are left when `i` is taken away.
fn skip(j: usize, i: usize) -> usize
    requires { j ≤ 16384 }
    ensures value { result ≡ passing j i }
    ensures near { result ≤ j + 1 }
{
    if j < i { j } else { j + 1 }
}

// An edge over three different vertices below n, the first of them below `hubs`.
#[tactic(auto, unfolding(crate::specs::Draws::after, crate::specs::Draws::edge_of))]
pub fn draw_edge(random: &mut Random, n: usize, hubs: usize) -> Edge
    requires { (3 ≤ n) × (0 < hubs) × (hubs ≤ n) × (n ≤ 16384) }
    ensures drawn { result ≡ edge_of n hubs random.old }
    ensures seed { random.new ≡ after 4 random.old }
{
    let a = random.below(hubs);
    let i = random.below(n - 1);
    let j = random.below(n - 2);
    let k = skip(j, i);
    let value = random.next();
    Edge {
        a: vertex_past(a, 0, n),
        b: vertex_past(a, i + 1, n),
        c: vertex_past(a, k + 1, n),
        value,
    }
}

// Draws all the edges so.
#[tactic(auto, using(crate::proofs::Drawing::one_more), unfolding(crate::specs::Draws::after, crate::specs::Draws::edges_of))]
pub fn draw_edges(random: &mut Random, n: usize, hubs: usize, edges: &mut [Edge])
    requires { (3 ≤ n) × (0 < hubs) × (hubs ≤ n) × (n ≤ 16384) }
    ensures drawn { edges.new ≡ edges_of n hubs (length edges.old) random.old }
    ensures seed { random.new ≡ after (4 * length edges.old) random.old }
{
    for edge in edges {
        *edge = draw_edge(random, n, hubs);
    }
}
