// One pop: from the equation list while it has one, else from the variable list.
ghost use Rattle.std.specs.Prelude.{◌≡◌, List, ◌≤◌};
ghost use Rattle.gf2.specs.Equation.{Equation};
ghost use Rattle.lazy.specs.Lazy.{State, pop};
ghost use Rattle.lazy.specs.Cancelled.{pop_cancels};
ghost use Rattle.lazy_pops.specs.Pops.{PopAt, PopReady, After};
ghost use Rattle.lazy_pops.specs.Step.{step_of};

use crate::copying::pop_dense;
use crate::solving::solve_for;
use crate::variables::pop_variable;
use lazy_setup::{Layout, Stand};
use rows::{Counted, Unsolvable};

// The top of the equation list is popped: by its priority it goes to the dense part or solves a variable.
fn pop_equation(
    numbers: &mut [u32],
    words: &mut [u64],
    layout: Layout,
    stand: Stand,
) -> Counted<Result<Stand, Unsolvable>>
    requires { PopReady layout.n layout.m layout stand numbers.old words.old × (1 ≤ stand.equations) }
    ensures after { (sys : List Equation) (s : State) → PopAt layout.n layout.m layout sys s stand numbers.old words.old
        → After layout.n layout.m layout sys (pop sys s) (step_of result.end) numbers.new words.new }
    ensures cancelled_value { (sys : List Equation) (s : State) → PopAt layout.n layout.m layout sys s stand numbers.old words.old
        → result.cancelled ≡ pop_cancels sys s }
{
    let next = Stand {
        equations: stand.equations - 1,
        remaining: stand.remaining - 1,
        ..stand
    };
    let last = layout.equations + next.equations;
    let e = numbers[last];
    numbers[last] = 0;
    if numbers[layout.priority + e as usize] == 0 {
        let end = pop_dense(numbers, words, layout, next, e);
        return Counted { end, cancelled: 0 };
    }
    let solving = solve_for(numbers, words, layout, next, e);
    Counted {
        end: Ok(solving.end),
        cancelled: solving.cancelled,
    }
}

// One pop, while equations remain.
pub fn pop(
    numbers: &mut [u32],
    words: &mut [u64],
    layout: Layout,
    stand: Stand,
) -> Counted<Result<Stand, Unsolvable>>
    requires { PopReady layout.n layout.m layout stand numbers.old words.old }
    ensures after { (sys : List Equation) (s : State) → PopAt layout.n layout.m layout sys s stand numbers.old words.old
        → After layout.n layout.m layout sys (pop sys s) (step_of result.end) numbers.new words.new }
    ensures cancelled_value { (sys : List Equation) (s : State) → PopAt layout.n layout.m layout sys s stand numbers.old words.old
        → result.cancelled ≡ pop_cancels sys s }
{
    if stand.equations != 0 {
        return pop_equation(numbers, words, layout, stand);
    }
    Counted {
        end: Ok(pop_variable(numbers, layout, stand)),
        cancelled: 0,
    }
}
