// The run over a table whose edges keep their rule.
ghost use Rattle.peel_gates.specs.Ends.{peeling_of};
ghost use Rattle.peel_runs.specs.Runs.{BuiltAsks, Leaves, run_says, run_call};
ghost use Rattle.peel_parts.specs.Parts.{Admitted, Past, Says};

use answers::Unpeeled;
use peel_gates::ends::crowded;
use peel_gates::rooms::clear_room;
use peel_parts::parts::{build_graph, peel_and_fill};
use peel_turns::record::Record;
use peeling::numbers::{Edge, Vertex};

// The run once the graph is made: `low` is the lowest vertex that lies on a crowd of edges.
pub fn run_graph<M: Record>(
    edges: &[Edge],
    n: usize,
    low: Option<Vertex>,
    solution: &mut [u64],
    numbers: &mut [u32],
    bytes: &mut [u8],
) -> Result<(), Unpeeled>
    requires { BuiltAsks M.high n low edges.now solution.old numbers.old bytes.old }
    ensures answer { Says (run_says M.high n edges.now solution.old) (peeling_of result) solution.new }
    ensures past { Past M.high n edges.now numbers.old bytes.old numbers.new bytes.new }
{
    if let Some(v) = low {
        return crowded(v.0 as usize);
    }
    peel_and_fill::<M>(edges, n, solution, numbers, bytes)
}

// The run, which leaves its work in the areas.
pub fn run_edges<M: Record>(
    edges: &[Edge],
    n: usize,
    solution: &mut [u64],
    numbers: &mut [u32],
    bytes: &mut [u8],
) -> Result<(), Unpeeled>
    requires { Admitted M.high n edges.now solution.old numbers.old bytes.old }
    ensures answer { Says (run_says M.high n edges.now solution.old) (peeling_of result) solution.new }
    ensures past { Past M.high n edges.now numbers.old bytes.old numbers.new bytes.new }
{
    let low = build_graph(edges, n, numbers, bytes);
    run_graph::<M>(edges, n, low, solution, numbers, bytes)
}

// The run of a peeler whose call is not refused before it: the room is zero afterwards.
pub fn run_peeler<M: Record>(
    edges: &[Edge],
    n: usize,
    solution: &mut [u64],
    numbers: &mut [u32],
    bytes: &mut [u8],
) -> Result<(), Unpeeled>
    requires { Admitted M.high n edges.now solution.old numbers.old bytes.old }
    ensures { Leaves (run_call M.high n edges.now solution.old numbers.old bytes.old) (peeling_of result) solution.new numbers.new bytes.new }
{
    let end = run_edges::<M>(edges, n, solution, numbers, bytes);
    clear_room::<M>(n, edges.len(), numbers, bytes);
    end
}
