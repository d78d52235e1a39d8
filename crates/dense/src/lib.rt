// Dense Gaussian elimination over two elements.
#![tactic(auto)]

pub mod engine;
pub mod run;

ghost use Rattle.answers.specs.Answers.{answer_of};
ghost use Rattle.answers.specs.Numbers.{number_of, place_of};
ghost use Rattle.answers.specs.Told.{Tells};
ghost use Rattle.dense.specs.Call.{dense_call};

use answers::Refusal;
use dense_rows::DenseSystem;
use engine::Dense;

// Solves the system; column c is bit c mod 64 of a row's word c div 64.
// The system is only read: the words hold a copy of it, and the numbers its pivots.
pub fn dense_gaussian_elimination(
    system: &DenseSystem,
    solution: &mut [u64],
    numbers: &mut [u32],
    words: &mut [u64],
) -> Result<(), Refusal>
    ensures { Tells (dense_call system.now.n system.now.m system.now.w system.now.rows.now system.now.constants.now solution.old numbers.old words.old) (number_of (answer_of result)) (place_of (answer_of result)) solution.new numbers.new words.new }
{
    run::solve_by::<Dense>(system, solution, numbers, words)
}
