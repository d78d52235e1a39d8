// Lazy elimination under a plain name.
ghost use Rattle.std.specs.Prelude.{◌≡◌};
ghost use Rattle.answers.specs.Reported.{reported};
ghost use Rattle.system.specs.System.{equations};
ghost use Rattle.lazy.specs.Cancelled.{lazy_cancels};
ghost use Rattle.lazy_calls.specs.LazyCall.{lazy_call};
ghost use Rattle.answers.specs.Told.{Tells};

use answers::tell;
use system::System;

// `lazy_calls::lazy_gaussian_elimination`; how many variables cancelled is written through `cancelled`.
pub fn orohkaril_lazy(
    n: usize,
    m: usize,
    starts: &[u32],
    vars: &[u32],
    constants: &[u64],
    solution: &mut [u64],
    numbers: &mut [u32],
    words: &mut [u64],
    cancelled: &mut u64,
    place: &mut usize,
) -> u32
    ensures tells { Tells (lazy_call n m starts.now vars.now constants.now solution.old numbers.old words.old) result place.new solution.new numbers.new words.new }
    ensures cancelled_after { cancelled.new ≡ reported (lazy_call n m starts.now vars.now constants.now solution.old numbers.old words.old).answer (lazy_cancels n (equations m starts.now vars.now constants.now)) }
{
    let system = System {
        n,
        m,
        starts,
        vars,
        constants,
    };
    let built = lazy_calls::lazy_gaussian_elimination(&system, solution, numbers, words);
    *cancelled = built.cancelled;
    tell(&built.answer, place)
}
