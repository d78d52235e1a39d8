// The sizes, the starts and the constants.
ghost use Rattle.std.specs.Prelude.{◌≡◌, ◌≤◌};
ghost use Rattle.answers.specs.Sizes.{max_equations};
ghost use Rattle.system.specs.System.{sizes_fit, starts_kept, shape_kept};

use crate::System;
use answers::{MAX_EQUATIONS, MAX_LISTED, MAX_VARIABLES};

#[tactic(auto, unfolding(crate::specs::System::sizes_fit))]
pub fn sizes_fit(n: usize, m: usize, t: usize) -> bool
    ensures { result ≡ sizes_fit n m t }
{
    n <= MAX_VARIABLES && m <= MAX_EQUATIONS && t <= MAX_LISTED
}

// Whether the m + 1 starts begin at 0, never fall and end at t.
fn starts_kept(m: usize, t: usize, starts: &[u32]) -> bool
    requires { m ≤ max_equations }
    ensures { result ≡ starts_kept m t starts.now }
{
    if starts.len() != m + 1
        || starts[0] != 0
        || !starts.is_sorted_by(|before, start| *before <= *start)
    {
        return false;
    }
    starts[m] as usize == t
}

#[tactic(auto, unfolding(crate::specs::System::shape_kept))]
pub fn shape_kept(system: &System) -> bool
    requires { system.now.m ≤ max_equations }
    ensures { result ≡ shape_kept system.now.m system.now.starts.now system.now.vars.now system.now.constants.now }
{
    starts_kept(system.m, system.vars.len(), system.starts) && system.constants.len() == system.m
}
