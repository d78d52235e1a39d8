// One unit, and the run as a loop of units.
ghost use Rattle.std.specs.Prelude.{◌≡◌, List, ◌≤◌};
ghost use Rattle.answers.specs.Sizes.{max_equations};
ghost use Rattle.answers.specs.Answers.{answer_of};
ghost use Rattle.gf2.specs.Equation.{Equation};
ghost use Rattle.lazy.specs.Lazy.{State, unit};
ghost use Rattle.lazy.specs.Cancelled.{unit_cancels};
ghost use Rattle.lazy_pops.specs.Step.{step_of};
ghost use Rattle.lazy_units.specs.Units.{Gone, unit_step_of, end_of};
ghost use Rattle.lazy_units.specs.Ending.{UnitAt, UnitReady};
ghost use Rattle.lazy_units.specs.Running.{Ran, RanCount};

use crate::clearing::clear_row;
use crate::filling::finish;
use answers::{Built, Refusal};
use lazy_setup::{Layout, Stand};
use rows::{Counted, Unsolvable};

// A step after which there is more to do, unless it refuses.
fn going(step: Counted<Result<Stand, Unsolvable>>) -> Counted<Result<Option<Stand>, Unsolvable>>
    ensures end_value { unit_step_of result.end ≡ step_of step.end }
    ensures cancelled_value { result.cancelled ≡ step.cancelled }
{
    Counted {
        end: step.end.map(Some),
        cancelled: step.cancelled,
    }
}

// A pop while equations remain; then an outer row of the dense part, its last not counted; then the last unit. Hands back how far the
// lists reach, and None where the build is solved.
pub fn unit(
    numbers: &mut [u32],
    words: &mut [u64],
    layout: Layout,
    stand: Stand,
    solution: &mut [u64],
) -> Counted<Result<Option<Stand>, Unsolvable>>
    requires { UnitReady layout.n layout.m layout stand numbers.old words.old solution.old }
    ensures gone { (sys : List Equation) (s : State)
        → UnitAt layout.n layout.m layout sys s stand numbers.old words.old solution.old
        → let step = unit_step_of result.end in
        Gone layout.n layout.m layout sys s (unit layout.n sys s) step solution.old solution.new numbers.new words.new }
    ensures cancelled_value { (sys : List Equation) (s : State)
        → UnitAt layout.n layout.m layout sys s stand numbers.old words.old solution.old → result.cancelled ≡ unit_cancels sys s }
{
    if stand.remaining != 0 {
        return going(lazy_pops::popping::pop(numbers, words, layout, stand));
    }
    if stand.done + 1 < stand.dense {
        return going(clear_row(numbers, words, layout, stand));
    }
    let end = match finish(numbers, words, layout, stand, solution) {
        Ok(()) => Ok(None),
        Err(unsolvable) => Err(unsolvable),
    };
    Counted { end, cancelled: 0 }
}

// Units until the build ends.
pub fn run_units(
    numbers: &mut [u32],
    words: &mut [u64],
    layout: Layout,
    stand: Stand,
    solution: &mut [u64],
) -> Built
    requires { UnitReady layout.n layout.m layout stand numbers.old words.old solution.old × (layout.m ≤ max_equations) }
    ensures ran { let answer = answer_of result.answer in
        Ran layout.n layout.m layout stand numbers.old words.old solution.old solution.new numbers.new answer }
    ensures ran_count { RanCount layout.n layout.m layout stand numbers.old words.old solution.old result.cancelled }
{
    let mut at = stand;
    let mut cancelled = 0u64;
    loop {
        let went = unit(numbers, words, layout, at, solution);
        cancelled += went.cancelled;
        match went.end {
            Ok(Some(next)) => at = next,
            Ok(None) => {
                return Built {
                    answer: Ok(()),
                    cancelled,
                };
            }
            Err(Unsolvable) => {
                return Built {
                    answer: Err(Refusal::Unsolvable),
                    cancelled,
                };
            }
        }
    }
}
