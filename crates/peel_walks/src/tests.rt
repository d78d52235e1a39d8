// The loop and the turn that read the table themselves: two edges that share vertex 2, the graph and the stack as they begin.
use crate::loops::peel;
use peel_gates::rooms::HighMem;
use peel_turns::visiting::{Heads, turn};
use peeling::numbers::{Edge, Vertex};

const TABLE: [Edge; 2] = [
    Edge {
        a: Vertex(0),
        b: Vertex(1),
        c: Vertex(2),
        value: 7,
    },
    Edge {
        a: Vertex(2),
        b: Vertex(3),
        c: Vertex(4),
        value: 9,
    },
];

// Vertices 0, 1, 3 and 4 lie on one edge; which edge is to be read, nobody has said.
const FIRST: Heads = Heads {
    stack: 4,
    peeled: 0,
    next: 99,
};

#[test]
fn peels_both_edges(rt: HostRuntime) {
    let mut numbers = [0, 0, 1, 1, 1, 0, 1, 3, 4, 0, 0, 0, 77];
    let mut bytes = [4, 5, 10, 5, 6, 0, 0, 77];
    let count = peel::<HighMem>(&TABLE, 5, FIRST, &mut numbers, &mut bytes);
    assert_eq!(rt; count, 2);
    // edge 1 at vertex 4, then edge 0 at vertex 2
    assert_eq!(rt; (numbers[10], numbers[11], numbers[12]), (1, 0, 77));
    assert_eq!(rt; (bytes[5], bytes[6], bytes[7]), (2, 2, 77));
}

#[test]
fn takes_one_edge_off(rt: HostRuntime) {
    let mut numbers = [0, 0, 1, 1, 1, 0, 1, 3, 4, 0, 0, 0, 77];
    let mut bytes = [4, 5, 10, 5, 6, 0, 0, 77];
    let after = turn::<HighMem>(&TABLE, 5, FIRST, &mut numbers, &mut bytes);
    // vertex 4 is popped, and vertex 2, now on edge 0 alone, comes on top
    assert_eq!(rt; (after.stack, after.peeled), (4, 1));
    assert_eq!(rt; (numbers[2], numbers[8], numbers[10]), (0, 2, 1));
    assert_eq!(rt; (bytes[2], bytes[3], bytes[4], bytes[5]), (6, 0, 2, 2));
}
