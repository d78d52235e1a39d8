// A slow dense engine to trust: dense elimination without back substitution.
#![tactic(auto)]

pub mod columns;
pub mod engine;

ghost use Rattle.answers.specs.Answers.{answer_of};
ghost use Rattle.answers.specs.Numbers.{number_of, place_of};
ghost use Rattle.answers.specs.Told.{Tells};
ghost use Rattle.slow_rules.specs.SlowCall.{slow_call};

use answers::Refusal;
use dense::run::solve_by;
use dense_rows::DenseSystem;
use engine::Slow;

// Solves what `dense::dense_gaussian_elimination` solves, in the same room and with the same answers.
#[tactic(auto, unfolding(slow_rules::specs::SlowCall::slow_call))]
pub fn slow_gaussian_elimination(
    system: &DenseSystem,
    solution: &mut [u64],
    numbers: &mut [u32],
    words: &mut [u64],
) -> Result<(), Refusal>
    ensures { Tells (slow_call system.now.n system.now.m system.now.w system.now.rows.now system.now.constants.now solution.old numbers.old words.old) (number_of (answer_of result)) (place_of (answer_of result)) solution.new numbers.new words.new }
{
    solve_by::<Slow>(system, solution, numbers, words)
}
