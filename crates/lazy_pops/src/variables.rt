// Pops from the variable list.
ghost use Rattle.std.specs.Prelude.{◌≡◌, List, ◌∷◌, ℕ};
ghost use Rattle.gf2.specs.Equation.{Equation};
ghost use Rattle.lazy.specs.Lazy.{State, pop_variable};
ghost use Rattle.lazy_pops.specs.Writes.{LowerAt, LowerReady, LowerDone};
ghost use Rattle.lazy_pops.specs.Pops.{VariableAt, VariableReady, Shows};

use crate::lowering::lower_in;
use lazy_setup::{Layout, Stand};

// The equations that list v, but for `skip`, lose 1 in priority and are pushed on reaching 1: how high the equation list is then.
pub fn lower_listed(numbers: &mut [u32], layout: Layout, v: usize, skip: usize, top: usize) -> usize
    requires { LowerReady layout.m layout v skip top numbers.old }
    ensures { (n : ℕ) (sys : List Equation) (s : State) → LowerAt n layout.m layout sys s v skip top numbers.old
        → LowerDone n layout.m layout sys s v skip result numbers.new }
{
    let first = layout.starts + v;
    let from = numbers[first] as usize;
    let to = numbers[first + 1] as usize;
    lower_in(numbers, layout, layout.lists + from, to - from, skip, top)
}

// The next variable is popped: weight 0 is skipped, any other becomes active.
pub fn pop_variable(numbers: &mut [u32], layout: Layout, stand: Stand) -> Stand
    requires { VariableReady layout.m layout stand numbers.old }
    ensures { (n : ℕ) (sys : List Equation) (s : State) (v : ℕ) (vs : List ℕ) → VariableAt n layout.m layout sys s v vs stand numbers.old
        → Shows n layout.m layout sys (pop_variable sys v vs s) result numbers.new }
{
    let next = Stand {
        variables: stand.variables - 1,
        ..stand
    };
    let last = layout.variables + next.variables;
    let v = numbers[last] as usize;
    numbers[last] = 0;
    if numbers[layout.weight + v] == 0 {
        return next;
    }
    numbers[layout.idle + v] = 0;
    Stand {
        equations: lower_listed(numbers, layout, v, layout.m, next.equations),
        ..next
    }
}
