// A graph of edges with three vertices: for each vertex the XOR of its edges' numbers, and a byte with its degree and the XOR of its sides.
ghost use Rattle.std.specs.Prelude.{◌≡◌, false};
ghost use Rattle.answers.specs.Answers.{answer_of};
ghost use Rattle.peeling.specs.Graph.{graph_of, holds_vertex};
ghost use Rattle.peeling.specs.GraphCalls.{empty_vertex, add_call, remove_call, zero_call, edge_and_side_call, degree_call};
ghost use Rattle.peeling.specs.GraphCalls.{DomainAnswer, may_add, may_remove, may_read, added_of, edge_and_side_of, degree_read_of};

use crate::incidence::{add_at, degree_at, number_at, remove_at, side_at, zero_at};
use crate::numbers::{EdgeNo, Vertex};
use answers::Refusal;

// What the graph holds beside its two lent slices: whether some vertex came to its 64th incidence.
#[derive(Clone, Copy, PartialEq, Debug)]
pub struct XorGraph {
    pub overflow: bool,
}

// What the two slices hold for one vertex.
#[derive(Clone, Copy, PartialEq, Debug)]
pub struct VertexRecord {
    pub edge: EdgeNo,
    pub byte: u8,
}

// The edge and the side of a vertex that lies on one edge, or lay on one before its degree was zeroed.
#[derive(Clone, Copy, PartialEq, Debug)]
pub struct EdgeAndSide {
    pub edge: EdgeNo,
    pub side: u8,
}

// Each call that takes a vertex is refused by 10 outside its domain, and then what it was lent stays. Numbers and bytes are two slices, since a record of
// both takes 8 bytes in place of 5, and come apart, since a call that reads is lent them shared: a struct of both would be needed in two kinds.
impl XorGraph {
    // One more incidence in a byte.
    pub const STEP: u8 = 4;
    // The sides in a byte.
    pub const MASK: u8 = 3;

    pub fn new() -> XorGraph
        ensures { result.overflow ≡ false }
    {
        XorGraph { overflow: false }
    }

    // The record of a vertex that no edge touches.
    pub fn empty() -> VertexRecord
        ensures { result ≡ empty_vertex }
    {
        VertexRecord {
            edge: EdgeNo(0),
            byte: 0,
        }
    }

    // Edge `x` comes to vertex `v`, at side `side`.
    pub fn add(
        &mut self,
        edges: &mut [u32],
        degrees: &mut [u8],
        v: Vertex,
        x: EdgeNo,
        side: u8,
    ) -> Result<(), Refusal>
        ensures value { added_of result self.new ≡ (add_call (graph_of edges.old degrees.old) self.old.overflow v.0 x.0 side).result }
        ensures graph { graph_of edges.new degrees.new ≡ (add_call (graph_of edges.old degrees.old) self.old.overflow v.0 x.0 side).graph }
        ensures numbers { DomainAnswer (may_add (graph_of edges.old degrees.old) v.0 side) (answer_of result) }
    {
        if !holds_vertex(edges, degrees, v) || 3 <= side {
            return Err(Refusal::OutsideDomain);
        }
        let over = add_at(edges, degrees, v, x, side);
        self.overflow |= over;
        Ok(())
    }

    // Edge `x` leaves vertex `v`, at side `side`.
    pub fn remove(
        edges: &mut [u32],
        degrees: &mut [u8],
        v: Vertex,
        x: EdgeNo,
        side: u8,
    ) -> Result<(), Refusal>
        ensures value { answer_of result ≡ (remove_call (graph_of edges.old degrees.old) v.0 x.0 side).answer }
        ensures graph { graph_of edges.new degrees.new ≡ (remove_call (graph_of edges.old degrees.old) v.0 x.0 side).graph }
        ensures numbers { DomainAnswer (may_remove (graph_of edges.old degrees.old) v.0 side) (answer_of result) }
    {
        if !holds_vertex(edges, degrees, v) || 3 <= side {
            return Err(Refusal::OutsideDomain);
        }
        let i = v.0 as usize;
        if degrees[i] < XorGraph::STEP {
            return Err(Refusal::OutsideDomain);
        }
        remove_at(edges, degrees, v, x, side);
        Ok(())
    }

    // The degree of vertex `v` is taken away; its edge and its side stay, and can be read later.
    pub fn zero(edges: &mut [u32], degrees: &mut [u8], v: Vertex) -> Result<(), Refusal>
        ensures value { answer_of result ≡ (zero_call (graph_of edges.old degrees.old) v.0).answer }
        ensures graph { graph_of edges.new degrees.new ≡ (zero_call (graph_of edges.old degrees.old) v.0).graph }
        ensures numbers { DomainAnswer (holds_vertex (graph_of edges.old degrees.old) v.0) (answer_of result) }
    {
        if !holds_vertex(edges, degrees, v) {
            return Err(Refusal::OutsideDomain);
        }
        zero_at(degrees, v);
        Ok(())
    }

    pub fn edge_and_side(edges: &[u32], degrees: &[u8], v: Vertex) -> Result<EdgeAndSide, Refusal>
        ensures value { edge_and_side_of result ≡ edge_and_side_call (graph_of edges.now degrees.now) v.0 }
        ensures numbers { DomainAnswer (may_read (graph_of edges.now degrees.now) v.0) (answer_of result) }
    {
        if !holds_vertex(edges, degrees, v) || 2 <= degree_at(degrees, v) {
            return Err(Refusal::OutsideDomain);
        }
        Ok(EdgeAndSide {
            edge: number_at(edges, v),
            side: side_at(degrees, v),
        })
    }

    pub fn degree(edges: &[u32], degrees: &[u8], v: Vertex) -> Result<u8, Refusal>
        ensures value { degree_read_of result ≡ degree_call (graph_of edges.now degrees.now) v.0 }
        ensures numbers { DomainAnswer (holds_vertex (graph_of edges.now degrees.now) v.0) (answer_of result) }
    {
        if !holds_vertex(edges, degrees, v) {
            return Err(Refusal::OutsideDomain);
        }
        Ok(degree_at(degrees, v))
    }
}

// Whether both slices hold the vertex.
fn holds_vertex(edges: &[u32], degrees: &[u8], v: Vertex) -> bool
    ensures { result ≡ holds_vertex (graph_of edges.now degrees.now) v.0 }
{
    let i = v.0 as usize;
    i < edges.len() && i < degrees.len()
}
