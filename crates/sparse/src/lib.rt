// Sparse Gaussian elimination over two elements, on lent memory.
#![tactic(auto)]

ghost use Rattle.std.specs.Prelude.{◌≡◌};
ghost use Rattle.answers.specs.Answers.{answer_of, rules_of};
ghost use Rattle.answers.specs.Numbers.{number_of, place_of};
ghost use Rattle.answers.specs.Reported.{reported};
ghost use Rattle.answers.specs.Told.{Tells};
ghost use Rattle.system.specs.Lent.{equations_in};
ghost use Rattle.sparse_rules.specs.SparseCall.{sparse_call};
ghost use Rattle.sparse_rules.specs.Cancelled.{sparse_cancels};
ghost use Rattle.sparse.specs.Gate.{gate_in};

use answers::{Built, Refusal, lengths_kept, sparse_numbers};
use system::System;

mod load;
mod solve;

// What is refused before the run: the system's rules, then the lengths beside it.
fn admitted(
    system: &System,
    solution: &[u64],
    numbers: &[u32],
    words: &[u64],
) -> Result<(), Refusal>
    ensures { rules_of result ≡ gate_in system.now solution.now numbers.now words.now }
{
    system.rules()?;
    let room = sparse_numbers(system.n, system.m);
    lengths_kept(system.n, solution, numbers, room, words, system.m)
}

// Solves a sparse system. Tells how many variables cancelled in its sums.
pub fn gaussian_elimination(
    system: &System,
    solution: &mut [u64],
    numbers: &mut [u32],
    words: &mut [u64],
) -> Built
    ensures tells { Tells (sparse_call system.now.n system.now.m system.now.starts.now system.now.vars.now system.now.constants.now solution.old numbers.old words.old) (number_of (answer_of result.answer)) (place_of (answer_of result.answer)) solution.new numbers.new words.new }
    ensures cancelled_value { result.cancelled ≡ reported (sparse_call system.now.n system.now.m system.now.starts.now system.now.vars.now system.now.constants.now solution.old numbers.old words.old).answer (sparse_cancels (equations_in system.now)) }
{
    match admitted(system, solution, numbers, words) {
        Err(refusal) => Built::refused(refusal),
        Ok(()) => solve::run(system, solution, numbers, words),
    }
}
