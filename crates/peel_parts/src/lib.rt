// The parts of a signature peeler's run over a lent table of edges.
#![tactic(auto)]

pub mod parts; // the graph's making, the peeling, the filling, and the end
