// The record of one vertex, for whoever knows that the vertex lies in both slices, which come apart as in `graph`.
ghost use Rattle.std.specs.Prelude.{◌≡◌, ◌+◌, ◌%◌, ◌≤◌, ◌<◌, [], length, get_or};
ghost use Rattle.peeling.specs.Graph.{graph_of, add, overflows, remove, clear, degree_of, sides_of};

use crate::graph::XorGraph;
use crate::numbers::{EdgeNo, Vertex};

// Hands back whether this was the 64th incidence, for which the byte has no room.
pub fn add_at(edges: &mut [u32], degrees: &mut [u8], v: Vertex, x: EdgeNo, side: u8) -> bool
    requires { (v.0 < length edges.old) × (v.0 < length degrees.old) }
    ensures value { result ≡ overflows (graph_of edges.old degrees.old) v.0 }
    ensures graph { graph_of edges.new degrees.new ≡ add (graph_of edges.old degrees.old) v.0 x.0 side }
{
    let i = v.0 as usize;
    let (byte, over) = degrees[i].overflowing_add(XorGraph::STEP);
    degrees[i] = byte ^ side;
    edges[i] ^= x.0;
    over
}

pub fn remove_at(edges: &mut [u32], degrees: &mut [u8], v: Vertex, x: EdgeNo, side: u8)
    requires { (v.0 < length edges.old) × (v.0 < length degrees.old) × (4 ≤ get_or degrees.old v.0 0) }
    ensures { graph_of edges.new degrees.new ≡ remove (graph_of edges.old degrees.old) v.0 x.0 side }
{
    let i = v.0 as usize;
    degrees[i] = (degrees[i] - XorGraph::STEP) ^ side;
    edges[i] ^= x.0;
}

// The edge and the side stay.
pub fn zero_at(degrees: &mut [u8], v: Vertex)
    requires { v.0 < length degrees.old }
    ensures { degrees.new ≡ (clear (graph_of [] degrees.old) v.0).degrees }
{
    let i = v.0 as usize;
    degrees[i] &= XorGraph::MASK;
}

pub fn degree_at(degrees: &[u8], v: Vertex) -> u8
    requires { v.0 < length degrees.now }
    ensures { result ≡ degree_of (graph_of [] degrees.now) v.0 }
{
    let i = v.0 as usize;
    degrees[i] / XorGraph::STEP
}

pub fn side_at(degrees: &[u8], v: Vertex) -> u8
    requires { v.0 < length degrees.now }
    ensures { result ≡ sides_of (graph_of [] degrees.now) v.0 }
{
    let i = v.0 as usize;
    degrees[i] & XorGraph::MASK
}

pub fn number_at(edges: &[u32], v: Vertex) -> EdgeNo
    requires { v.0 < length edges.now }
    ensures { result.0 ≡ get_or edges.now v.0 0 }
{
    let i = v.0 as usize;
    EdgeNo(edges[i])
}
