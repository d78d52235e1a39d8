// The parts of a run over a table whose edges keep their rule.
ghost use Rattle.std.specs.Prelude.{◌≡◌};
ghost use Rattle.peel_gates.specs.Ends.{peeling_of};
ghost use Rattle.peel_steps.specs.Lowest.{vertex_or};
ghost use Rattle.peel_walks.specs.Walks.{PeelEnds};
ghost use Rattle.peel_parts.specs.Parts.{Begins, GraphBuilt, PeelAsks, FillAsks, cells_after, SettleAsks, GraphAsks, Says, Past, ran_says};

use answers::Unpeeled;
use areas::fill;
use peel_gates::ends::ended;
use peel_gates::rooms::empty_graph;
use peel_turns::record::Record;
use peel_turns::visiting::preload;
use peel_walks::loops::{add_edges, assign, peel_from};
use peeling::numbers::{Edge, Vertex};

// Makes the graph of the edges, and hands back the lowest vertex that came to its 64th incidence.
pub fn build_graph(
    edges: &[Edge],
    n: usize,
    numbers: &mut [u32],
    bytes: &mut [u8],
) -> Option<Vertex>
    requires { Begins n edges.now numbers.old bytes.old }
    ensures { GraphBuilt n edges.now numbers.old bytes.old numbers.new bytes.new result }
{
    empty_graph(n, numbers, bytes);
    add_edges(edges, &mut numbers[..n], &mut bytes[..n])
}

// Peels the edges that can be peeled, and hands back how many they are.
pub fn peel_edges<M: Record>(
    edges: &[Edge],
    n: usize,
    numbers: &mut [u32],
    bytes: &mut [u8],
) -> usize
    requires { PeelAsks M.high n edges.now numbers.old bytes.old }
    ensures { PeelEnds M.high n edges.now numbers.old bytes.old numbers.new bytes.new result }
{
    let first = preload(n, numbers, bytes);
    peel_from::<M>(edges, n, first, numbers, bytes)
}

// Fills the cells if at least `m` edges are peeled.
pub fn fill_cells<M: Record>(
    edges: &[Edge],
    n: usize,
    m: usize,
    count: usize,
    solution: &mut [u64],
    numbers: &[u32],
    bytes: &[u8],
)
    requires { FillAsks M.high n edges.now count solution.old numbers.now bytes.now }
    ensures { solution.new ≡ cells_after M.high n edges.now m count solution.old numbers.now bytes.now }
{
    if count < m {
        return;
    }
    fill(solution, 0, n, 0);
    assign::<M>(edges, n, count, solution, numbers, bytes);
}

// Fills, and says whether the edges are solved or stuck.
pub fn settle<M: Record>(
    edges: &[Edge],
    n: usize,
    count: usize,
    solution: &mut [u64],
    numbers: &[u32],
    bytes: &[u8],
) -> Result<(), Unpeeled>
    requires { SettleAsks M.high n edges.now count solution.old numbers.now bytes.now }
    ensures { Says (ran_says M.high n edges.now solution.old) (peeling_of result) solution.new }
{
    let m = edges.len();
    fill_cells::<M>(edges, n, m, count, solution, numbers, bytes);
    ended(m, count)
}

// The run where no vertex lies on 64 edges.
pub fn peel_and_fill<M: Record>(
    edges: &[Edge],
    n: usize,
    solution: &mut [u64],
    numbers: &mut [u32],
    bytes: &mut [u8],
) -> Result<(), Unpeeled>
    requires { GraphAsks M.high n edges.now solution.old numbers.old bytes.old }
    ensures answer { Says (ran_says M.high n edges.now solution.old) (peeling_of result) solution.new }
    ensures past { Past M.high n edges.now numbers.old bytes.old numbers.new bytes.new }
{
    let count = peel_edges::<M>(edges, n, numbers, bytes);
    settle::<M>(edges, n, count, solution, numbers, bytes)
}
