// The peelers.
ghost use Rattle.peel_rules.specs.Calls.{peel_low_call, peel_high_call};
ghost use Rattle.peel_gates.specs.Ends.{peeling_of};
ghost use Rattle.peel_runs.specs.Runs.{Leaves};

use answers::Unpeeled;
use peel_calls::call::peel_by_sig_vals;
use peel_gates::rooms::{HighMem, LowMem};
use peeling::numbers::Edge;

// Keeps the number and the side of each peeled edge.
#[tactic(auto, unfolding(peel_calls::specs::Judging::peeling_call))]
pub fn peel_by_sig_vals_high_mem(
    n: usize,
    edges: &[Edge],
    solution: &mut [u64],
    numbers: &mut [u32],
    bytes: &mut [u8],
) -> Result<(), Unpeeled>
    ensures { Leaves (peel_high_call n edges.now solution.old numbers.old bytes.old) (peeling_of result) solution.new numbers.new bytes.new }
{
    peel_by_sig_vals::<HighMem>(edges, n, solution, numbers, bytes)
}

// Keeps the vertex of each peeled edge, and reads its record again.
#[tactic(auto, unfolding(peel_calls::specs::Judging::peeling_call))]
pub fn peel_by_sig_vals_low_mem(
    n: usize,
    edges: &[Edge],
    solution: &mut [u64],
    numbers: &mut [u32],
    bytes: &mut [u8],
) -> Result<(), Unpeeled>
    ensures { Leaves (peel_low_call n edges.now solution.old numbers.old bytes.old) (peeling_of result) solution.new numbers.new bytes.new }
{
    peel_by_sig_vals::<LowMem>(edges, n, solution, numbers, bytes)
}
