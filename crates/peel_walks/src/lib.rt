// The loops over a lent table of edges.
#![tactic(auto)]

pub mod loops; // the graph's making, the peeling, and the filling
#[cfg(test)]
mod tests;
