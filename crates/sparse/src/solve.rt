// The lent system is loaded, its rows are solved, and the rooms are zeroed.
ghost use Rattle.std.specs.Prelude.{◌≡◌, ◌≤◌, length};
ghost use Rattle.answers.specs.Answers.{answer_of};
ghost use Rattle.answers.specs.Sizes.{sparse_numbers, sparse_words};
ghost use Rattle.system.specs.Lent.{FitsIn, equations_in};
ghost use Rattle.sparse_rules.specs.Cancelled.{sparse_cancels};
ghost use Rattle.sparse.specs.Gate.{ran_in};

use answers::{Built, Refusal};
use sparse_rows::echelon::Unsolvable;
use system::System;

// The run of a call that is not refused: the rooms are zero afterwards.
pub fn run(system: &System, solution: &mut [u64], numbers: &mut [u32], words: &mut [u64]) -> Built
    requires { FitsIn system.now × (length solution.old ≡ system.now.n) × (sparse_numbers system.now.n system.now.m ≤ length numbers.old) × (sparse_words system.now.m ≤ length words.old) }
    ensures answer_value { answer_of result.answer ≡ (ran_in system.now solution.old numbers.old words.old).answer }
    ensures solution_after { solution.new ≡ (ran_in system.now solution.old numbers.old words.old).solution }
    ensures numbers_after { numbers.new ≡ (ran_in system.now solution.old numbers.old words.old).numbers }
    ensures words_after { words.new ≡ (ran_in system.now solution.old numbers.old words.old).words }
    ensures cancelled_value { result.cancelled ≡ sparse_cancels (equations_in system.now) }
{
    let (n, m) = (system.n, system.m);
    crate::load::load(system, numbers, words);
    let counted = sparse_rows::solve::solve_rows(numbers, words, n, m, m, solution);
    rows::empty(numbers, words, n, m);
    let answer = match counted.end {
        Ok(()) => Ok(()),
        Err(Unsolvable) => Err(Refusal::Unsolvable),
    };
    Built {
        answer,
        cancelled: counted.cancelled,
    }
}
