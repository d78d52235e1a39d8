// The vertices of an edge, seen from the side from which it is peeled: a side is a number, since the graph's bytes hold XORs of sides.

ghost use Rattle.std.specs.Prelude.{◌≡◌};
ghost use Rattle.peel_rules.specs.Edges.{pivot, first, second};
ghost use Rattle.peel_rules.specs.Machine.{side_from, side_no, first_side, second_side};

use peeling::numbers::{Edge, Vertex};

#[tactic(auto, unfolding(peel_rules::specs::Edges::pivot, peel_rules::specs::Machine::side_from))]
pub fn vertex_at(e: Edge, side: u8) -> Vertex
    ensures { result.0 ≡ pivot (side_from side) e }
{
    match side {
        0 => e.a,
        1 => e.b,
        _ => e.c,
    }
}

// The other two, in the order of their sides.
#[tactic(auto, unfolding(peel_rules::specs::Edges::first, peel_rules::specs::Machine::side_from))]
pub fn first_of(e: Edge, side: u8) -> Vertex
    ensures { result.0 ≡ first (side_from side) e }
{
    match side {
        0 => e.b,
        _ => e.a,
    }
}

#[tactic(auto, unfolding(peel_rules::specs::Edges::second, peel_rules::specs::Machine::side_from))]
pub fn second_of(e: Edge, side: u8) -> Vertex
    ensures { result.0 ≡ second (side_from side) e }
{
    match side {
        0 | 1 => e.c,
        _ => e.b,
    }
}

// Their sides.
#[tactic(auto, unfolding(peel_rules::specs::Machine::first_side, peel_rules::specs::Machine::side_from, peel_rules::specs::Machine::side_no))]
pub fn first_side(side: u8) -> u8
    ensures { result ≡ side_no (first_side (side_from side)) }
{
    match side {
        0 => 1,
        _ => 0,
    }
}

#[tactic(auto, unfolding(peel_rules::specs::Machine::second_side, peel_rules::specs::Machine::side_from, peel_rules::specs::Machine::side_no))]
pub fn second_side(side: u8) -> u8
    ensures { result ≡ side_no (second_side (side_from side)) }
{
    match side {
        0 | 1 => 2,
        _ => 1,
    }
}
