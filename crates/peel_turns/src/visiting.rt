// The stack of vertices to visit, and the edge of the vertex on top taken off.
// Both areas stay parameters of their own, here and above: of a struct of two slices that is lent by `&mut` the checker forgets the elements of a field
// that a call has read, so each function would take both out first.
ghost use Rattle.std.specs.Prelude.{◌≡◌, ◌+◌, ◌<◌, length, set};
ghost use Rattle.peel_turns.specs.Steps.{Holds, Preloaded, Visits, Visited, TakesOff, TakenOff, next_of, Tops, Turns, Turned};
ghost use Rattle.peel_turns.specs.TurnsOn.{TurnsOn, TurnedOn};

use crate::record::Record;
use peel_steps::sides::{first_of, first_side, second_of, second_side};
use peeling::graph::EdgeAndSide;
use peeling::incidence::{degree_at, number_at, remove_at, side_at, zero_at};
use peeling::numbers::{Edge, Vertex};
use stack_steps::Head;
use stack_steps::fast::FastStack;

// Where a peeler stands.
#[derive(Clone, Copy, PartialEq, Debug)]
pub struct Heads {
    // The head of the stack.
    pub stack: usize,
    // How many edges are peeled.
    pub peeled: usize,
    // The edge to be read for the vertex on top.
    pub next: usize,
}

// Pushes the vertex, and hands back the stack's head.
fn push(n: usize, top: usize, v: Vertex, numbers: &mut [u32]) -> usize
    requires { n + top < length numbers.old }
    ensures value { result ≡ top + 1 }
    ensures area { numbers.new ≡ set numbers.old (n + top) v.0 }
{
    let mut head = Head {
        lower: top,
        upper: top,
    };
    // There is room, so the push is not refused.
    let _ = FastStack::push(&mut head, &mut numbers[n..], v);
    head.lower
}

// Pushes the vertex if its degree is 2, then takes the edge off it.
fn visit(
    n: usize,
    top: usize,
    w: Vertex,
    at: EdgeAndSide,
    numbers: &mut [u32],
    bytes: &mut [u8],
) -> usize
    requires { Visits n top numbers.old bytes.old w.0 }
    ensures { Visited n top numbers.old bytes.old numbers.new bytes.new w.0 at.edge.0 at.side result }
{
    let two = degree_at(bytes, w) == 2;
    let mut head = top;
    if two {
        head = push(n, top, w, numbers);
    }
    remove_at(numbers, bytes, w, at.edge, at.side);
    head
}

// Zeroes the degree of `v`, and takes its edge off the other two.
fn take_off(
    n: usize,
    top: usize,
    v: Vertex,
    at: EdgeAndSide,
    e: Edge,
    numbers: &mut [u32],
    bytes: &mut [u8],
) -> usize
    requires { TakesOff n top numbers.old bytes.old v.0 at.edge.0 at.side e }
    ensures { TakenOff n top numbers.old bytes.old numbers.new bytes.new v.0 at.edge.0 at.side e result }
{
    let a = first_of(e, at.side);
    let b = second_of(e, at.side);
    let s = EdgeAndSide {
        side: first_side(at.side),
        ..at
    };
    let t = EdgeAndSide {
        side: second_side(at.side),
        ..at
    };
    zero_at(bytes, v);
    let head = visit(n, top, a, s, numbers, bytes);
    visit(n, head, b, t, numbers, bytes)
}

// The number of the edge of the vertex on top of the stack, 0 where it has none.
pub fn next_edge(n: usize, stack: usize, numbers: &[u32], bytes: &[u8]) -> usize
    requires { Tops n stack numbers.now bytes.now }
    ensures { result ≡ next_of n stack numbers.now bytes.now }
{
    if stack == 0 {
        return 0;
    }
    let v = Vertex(numbers[n + (stack - 1)]);
    if degree_at(bytes, v) == 0 {
        return 0;
    }
    number_at(numbers, v).0 as usize
}

// Pops a vertex: one of degree 0 is skipped; of any other the edge is recorded and taken off. It reads no `next`, and tells none.
pub fn turn<M: Record>(
    edges: &[Edge],
    n: usize,
    h: Heads,
    numbers: &mut [u32],
    bytes: &mut [u8],
) -> Heads
    requires { Turns M.high n edges.now h.stack h.peeled numbers.old bytes.old }
    ensures { Turned M.high n edges.now h.stack h.peeled numbers.old bytes.old numbers.new bytes.new result }
{
    let top = h.stack - 1;
    let v = Vertex(numbers[n + top]);
    if degree_at(bytes, v) == 0 {
        return Heads { stack: top, ..h };
    }
    let at = EdgeAndSide {
        edge: number_at(numbers, v),
        side: side_at(bytes, v),
    };
    let e = edges[at.edge.0 as usize];
    M::keep(n, h.peeled, v, at, numbers, bytes);
    let stack = take_off(n, top, v, at, e, numbers, bytes);
    Heads {
        stack,
        peeled: h.peeled + 1,
        ..h
    }
}

// The same, where the edge of the vertex on top is `e`; tells the number of the edge of the vertex that comes on top, too.
pub fn turn_on<M: Record>(
    n: usize,
    h: Heads,
    e: Edge,
    numbers: &mut [u32],
    bytes: &mut [u8],
) -> Heads
    requires { TurnsOn M.high n h.stack h.peeled e numbers.old bytes.old }
    ensures { TurnedOn M.high n h.stack h.peeled e numbers.old bytes.old numbers.new bytes.new result }
{
    let top = h.stack - 1;
    let v = Vertex(numbers[n + top]);
    if degree_at(bytes, v) == 0 {
        let below = next_edge(n, top, numbers, bytes);
        return Heads {
            stack: top,
            next: below,
            ..h
        };
    }
    let at = EdgeAndSide {
        edge: number_at(numbers, v),
        side: side_at(bytes, v),
    };
    M::keep(n, h.peeled, v, at, numbers, bytes);
    let stack = take_off(n, top, v, at, e, numbers, bytes);
    let next = next_edge(n, stack, numbers, bytes);
    Heads {
        stack,
        peeled: h.peeled + 1,
        next,
    }
}

// Puts the vertices of degree 1 on the stack, in rising order.
pub fn preload(n: usize, numbers: &mut [u32], bytes: &[u8]) -> Heads
    requires { Holds n numbers.old bytes.now }
    ensures preloaded { Preloaded n numbers.old bytes.now numbers.new result.stack }
    ensures none_peeled { result.peeled ≡ 0 }
    ensures next { result.next ≡ next_of n result.stack numbers.new bytes.now }
{
    let mut top = 0;
    for v in 0..n {
        let w = Vertex(v as u32);
        if degree_at(bytes, w) == 1 {
            top = push(n, top, w, numbers);
        }
    }
    let first = next_edge(n, top, numbers, bytes);
    Heads {
        stack: top,
        peeled: 0,
        next: first,
    }
}
