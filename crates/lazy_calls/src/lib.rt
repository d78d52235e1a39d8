// The call of lazy elimination: its set-up, its units, and zeros at the end.
#![tactic(auto)]

use answers::{Built, Refusal};
use system::System;

mod sweeping;
mod whole;

ghost use Rattle.std.specs.Prelude.{◌≡◌, length};
ghost use Rattle.answers.specs.Answers.{answer_of, rules_of};
ghost use Rattle.answers.specs.Calls.{both_rules, lengths_rules};
ghost use Rattle.answers.specs.Numbers.{number_of, place_of};
ghost use Rattle.answers.specs.Reported.{reported};
ghost use Rattle.answers.specs.Sizes.{lazy_numbers, lazy_words};
ghost use Rattle.answers.specs.Told.{Tells};
ghost use Rattle.system.specs.Lent.{equations_in, rules_in};
ghost use Rattle.lazy.specs.Cancelled.{lazy_cancels};
ghost use Rattle.lazy_calls.specs.LazyCall.{lazy_call_in};

// Whether the system keeps its rules, and what is lent beside it has its length.
fn admitted(
    system: &System,
    solution: &[u64],
    numbers: &[u32],
    words: &[u64],
) -> Result<(), Refusal>
    ensures { let numbers_room = lazy_numbers system.now.n system.now.m (length system.now.vars.now) in
        let lengths = lengths_rules system.now.n numbers_room (lazy_words system.now.m) solution.now numbers.now words.now in
        rules_of result ≡ both_rules (rules_in system.now) lengths }
{
    system.rules()?;
    let numbers_room = answers::lazy_numbers(system.n, system.m, system.vars.len());
    let words_room = answers::lazy_words(system.m);
    answers::lengths_kept(system.n, solution, numbers, numbers_room, words, words_room)
}

// Solves a sparse system by lazy elimination. Tells how many variables cancelled in its sums.
pub fn lazy_gaussian_elimination(
    system: &System,
    solution: &mut [u64],
    numbers: &mut [u32],
    words: &mut [u64],
) -> Built
    ensures tells { let answer = answer_of result.answer in
        let call = lazy_call_in system.now solution.old numbers.old words.old in
        Tells call (number_of answer) (place_of answer) solution.new numbers.new words.new }
    ensures cancelled_value { let total = lazy_cancels system.now.n (equations_in system.now) in
        result.cancelled ≡ reported (lazy_call_in system.now solution.old numbers.old words.old).answer total }
{
    match admitted(system, solution, numbers, words) {
        Err(refusal) => Built::refused(refusal),
        Ok(()) => whole::run(system, solution, numbers, words),
    }
}
