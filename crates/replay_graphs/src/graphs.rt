// Calls on one graph, replayed.
use crate::calls::{Call, case_of, replied};
use crate::replies::{Reply, told, valued};
use answers::Refusal;
use peeling::graph::XorGraph;
use peeling::numbers::{EdgeNo, Vertex};
use replay_cases::said::Verdict;

// The calls, in the order of their numbers in the file; every other number asks for the overflow.
#[derive(Clone, Copy, PartialEq, Debug)]
enum Op {
    Add,
    Remove,
    Zero,
    Degree,
    EdgeAndSide,
    Overflow,
}

impl From<u32> for Op {
    fn from(number: u32) -> Op {
        match number {
            0 => Op::Add,
            1 => Op::Remove,
            2 => Op::Zero,
            3 => Op::Degree,
            4 => Op::EdgeAndSide,
            _ => Op::Overflow,
        }
    }
}

fn degree(edges: &[u32], degrees: &[u8], v: Vertex) -> Reply {
    let read = XorGraph::degree(edges, degrees, v);
    valued(&read, u32::from(read.unwrap_or(0)), 0)
}

fn edge_and_side(edges: &[u32], degrees: &[u8], v: Vertex) -> Reply {
    let read = XorGraph::edge_and_side(edges, degrees, v);
    match read {
        Ok(found) => valued(&read, found.edge.0, u32::from(found.side)),
        Err(_) => told(&read),
    }
}

fn graph_call(graph: &mut XorGraph, edges: &mut [u32], degrees: &mut [u8], call: Call) -> Reply {
    let v = Vertex(call.v);
    let x = EdgeNo(call.x);
    // No call of the file has a side above 255.
    let side = u8::try_from(call.side).unwrap_or(u8::MAX);
    match Op::from(call.op) {
        Op::Add => told(&graph.add(edges, degrees, v, x, side)),
        Op::Remove => told(&XorGraph::remove(edges, degrees, v, x, side)),
        Op::Zero => told(&XorGraph::zero(edges, degrees, v)),
        Op::Degree => degree(edges, degrees, v),
        Op::EdgeAndSide => edge_and_side(edges, degrees, v),
        Op::Overflow => valued::<(), Refusal>(&Ok(()), u32::from(graph.overflow), 0),
    }
}

// No graph of the file has more vertices.
const VERTICES: usize = 16;

fn graph_run(n: u64, calls: &[u32], replies: &[u32]) -> bool {
    let n = n as usize;
    if VERTICES < n {
        return false;
    }
    let mut edge_cells = [0u32; VERTICES];
    let mut degree_cells = [0u8; VERTICES];
    let edges = &mut edge_cells[..n];
    let degrees = &mut degree_cells[..n];
    let mut graph = XorGraph::new();
    replied(
        calls,
        replies,
        |call| graph_call(&mut graph, edges, degrees, call),
    )
}

pub fn graph_case(bytes: &[u8]) -> Verdict {
    case_of(bytes, graph_run).unwrap_or(Verdict::Different)
}
