// The call of both peelers.
ghost use Rattle.peel_gates.specs.Ends.{peeling_of};
ghost use Rattle.peel_runs.specs.Runs.{Leaves};
ghost use Rattle.peel_calls.specs.Judging.{peeling_call};

use answers::Unpeeled;
use peel_gates::rules::judge_lent;
use peel_runs::run::run_peeler;
use peel_turns::record::Record;
use peeling::numbers::Edge;

// The call of both peelers, which differ in what they keep of a peeled edge.
pub fn peel_by_sig_vals<M: Record>(
    edges: &[Edge],
    n: usize,
    solution: &mut [u64],
    numbers: &mut [u32],
    bytes: &mut [u8],
) -> Result<(), Unpeeled>
    ensures { Leaves (peeling_call M.high n edges.now solution.old numbers.old bytes.old) (peeling_of result) solution.new numbers.new bytes.new }
{
    judge_lent::<M>(n, edges, solution, numbers, bytes)?;
    run_peeler::<M>(edges, n, solution, numbers, bytes)
}
