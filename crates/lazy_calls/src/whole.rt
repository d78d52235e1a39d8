// The whole run on lent areas: set-up, units, zeros.
ghost use Rattle.std.specs.Prelude.{◌≡◌, ◌≤◌, length, replicate};
ghost use Rattle.answers.specs.Answers.{answer_of};
ghost use Rattle.answers.specs.Sizes.{lazy_numbers, lazy_words};
ghost use Rattle.system.specs.Lent.{equations_in, FitsIn};
ghost use Rattle.lazy.specs.Cancelled.{lazy_cancels};
ghost use Rattle.lazy_calls.specs.LazyCall.{lazy_ran_in, lazy_answer_in};
ghost use Rattle.lazy_units.specs.Running.{Answers};

use crate::sweeping::sweep;
use answers::Built;
use lazy_setup::{Layout, setup};
use lazy_units::units::run_units;
use system::System;

// The build in areas that are just the room: they are zero afterwards.
fn build(system: &System, solution: &mut [u64], numbers: &mut [u32], words: &mut [u64]) -> Built
    requires { FitsIn system.now × (length solution.old ≡ system.now.n)
        × (length numbers.old ≡ lazy_numbers system.now.n system.now.m (length system.now.vars.now))
        × (length words.old ≡ lazy_words system.now.m) }
    ensures answers { Answers (lazy_answer_in system.now) (answer_of result.answer) solution.old solution.new }
    ensures numbers_after { numbers.new ≡ replicate (length numbers.old) 0 }
    ensures words_after { words.new ≡ replicate (length words.old) 0 }
    ensures cancelled_value { result.cancelled ≡ lazy_cancels system.now.n (equations_in system.now) }
{
    let stand = setup(system, numbers, words);
    let layout = Layout::of(system.n, system.m, system.vars.len());
    let end = run_units(numbers, words, layout, stand, solution);
    sweep(numbers, layout);
    areas::fill(words, 0, words.len(), 0);
    end
}

// The run of a call that is not refused: the rooms are zero afterwards.
pub fn run(system: &System, solution: &mut [u64], numbers: &mut [u32], words: &mut [u64]) -> Built
    requires { FitsIn system.now × (length solution.old ≡ system.now.n)
        × (lazy_numbers system.now.n system.now.m (length system.now.vars.now) ≤ length numbers.old)
        × (lazy_words system.now.m ≤ length words.old) }
    ensures answer_value { answer_of result.answer ≡ (lazy_ran_in system.now solution.old numbers.old words.old).answer }
    ensures solution_after { solution.new ≡ (lazy_ran_in system.now solution.old numbers.old words.old).solution }
    ensures numbers_after { numbers.new ≡ (lazy_ran_in system.now solution.old numbers.old words.old).numbers }
    ensures words_after { words.new ≡ (lazy_ran_in system.now solution.old numbers.old words.old).words }
    ensures cancelled_value { result.cancelled ≡ lazy_cancels system.now.n (equations_in system.now) }
{
    let numbers_room = answers::lazy_numbers(system.n, system.m, system.vars.len());
    let words_room = answers::lazy_words(system.m);
    build(
        system,
        solution,
        &mut numbers[..numbers_room],
        &mut words[..words_room],
    )
}
