// The peelers' steps on one edge: whoever has the edge table calls them.
#![tactic(auto)]

pub mod sides; // the vertices of an edge, seen from a side
pub mod building; // the graph takes an edge in
pub mod filling; // the cell of a peeled edge
