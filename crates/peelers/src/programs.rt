// The peelers for programs, which have their edges by value: the first m of 256.
ghost use Rattle.std.specs.Prelude.{◌≡◌, take};
ghost use Rattle.peel_gates.specs.Ends.{peeling_of};
ghost use Rattle.peel_rules.specs.Calls.{peel_low_call, peel_high_call};
ghost use Rattle.peel_runs.specs.Runs.{Leaves};
ghost use Rattle.peelers.specs.Programs.{at_most256};

use crate::calls::{peel_by_sig_vals_high_mem, peel_by_sig_vals_low_mem};
use answers::Unpeeled;
use peeling::numbers::Edge;

// No more than there are.
pub fn at_most_256(m: usize) -> usize
    ensures { result ≡ at_most256 m }
{
    if 256 < m {
        return 256;
    }
    m
}

pub fn peel_low_of(
    table: [Edge; 256],
    m: usize,
    n: usize,
    solution: &mut [u64],
    numbers: &mut [u32],
    bytes: &mut [u8],
) -> Result<(), Unpeeled>
    ensures { Leaves (peel_low_call n (take m table) solution.old numbers.old bytes.old) (peeling_of result) solution.new numbers.new bytes.new }
{
    let k = at_most_256(m);
    peel_by_sig_vals_low_mem(n, &table[..k], solution, numbers, bytes)
}

pub fn peel_high_of(
    table: [Edge; 256],
    m: usize,
    n: usize,
    solution: &mut [u64],
    numbers: &mut [u32],
    bytes: &mut [u8],
) -> Result<(), Unpeeled>
    ensures { Leaves (peel_high_call n (take m table) solution.old numbers.old bytes.old) (peeling_of result) solution.new numbers.new bytes.new }
{
    let k = at_most_256(m);
    peel_by_sig_vals_high_mem(n, &table[..k], solution, numbers, bytes)
}
