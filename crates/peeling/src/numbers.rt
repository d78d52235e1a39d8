// Counts of two sorts, and the record of the edge table.

// The number of a vertex, which is the number of its cell.
#[repr(C)]
#[derive(Clone, Copy, PartialEq, Debug)]
pub struct Vertex(pub u32);

// The number of an edge: its place in the table.
#[derive(Clone, Copy, PartialEq, Debug)]
pub struct EdgeNo(pub u32);

// Three vertices, at sides 0, 1 and 2, and the XOR that their cells must have. In memory 24 bytes: the vertices at 0, 4 and 8, the value at 16.
#[repr(C)]
#[derive(Clone, Copy, PartialEq, Debug)]
pub struct Edge {
    pub a: Vertex,
    pub b: Vertex,
    pub c: Vertex,
    pub value: u64,
}
