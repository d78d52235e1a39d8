// The graph takes an edge in.
ghost use Rattle.std.specs.Prelude.{◌≡◌, ℕ, ◌<◌, length};
ghost use Rattle.answers.specs.Sizes.{max_equations};
ghost use Rattle.peeling.specs.Graph.{graph_of};
ghost use Rattle.peel_rules.specs.Edges.{Valid};
ghost use Rattle.peel_rules.specs.Machine.{add_edge, noted_edge};
ghost use Rattle.peel_steps.specs.Lowest.{lower, vertex_or};

use peeling::incidence::add_at;
use peeling::numbers::{Edge, EdgeNo, Vertex};

// Hands back the lowest vertex so far that came to its 64th incidence.
#[tactic(auto, using(crate::proofs::BuildLaws::is_noted), unfolding(peel_rules::specs::Machine::add_edge, peel_rules::specs::Machine::noted_edge, peel_rules::specs::Machine::noted))]
pub fn add_edge(
    numbers: &mut [u32],
    bytes: &mut [u8],
    i: usize,
    e: Edge,
    low: Option<Vertex>,
) -> Option<Vertex>
    requires { (Valid (length numbers.old) e) × (Valid (length bytes.old) e) × (i < max_equations) }
    ensures lowest { (n : ℕ) → Valid n e → vertex_or n result ≡ noted_edge (graph_of numbers.old bytes.old) i e (vertex_or n low) }
    ensures graph { graph_of numbers.new bytes.new ≡ add_edge (graph_of numbers.old bytes.old) i e }
{
    let x = EdgeNo(i as u32);
    let a = add_at(numbers, bytes, e.a, x, 0);
    let b = add_at(numbers, bytes, e.b, x, 1);
    let c = add_at(numbers, bytes, e.c, x, 2);
    // Seldom so: an edge pays for one test.
    if a | (b | c) {
        let one = lower(a.then_some(e.a), low);
        let two = lower(b.then_some(e.b), one);
        return lower(c.then_some(e.c), two);
    }
    low
}

// The lower of two vertices, if there are two.
fn lower(a: Option<Vertex>, b: Option<Vertex>) -> Option<Vertex>
    ensures { result ≡ lower a b }
{
    match (a, b) {
        (Some(v), Some(w)) => Some(Vertex(v.0.min(w.0))),
        _ => a.or(b),
    }
}
