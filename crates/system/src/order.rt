// The order of the variables within an equation.
ghost use Rattle.std.specs.Prelude.{◌≡◌, ◌<◌, true, List, ℕ, length, MatchOption};
ghost use Rattle.system.specs.System.{starts_kept, in_order, lowest_bad, equations};

use crate::System;

// Whether the variables are strictly increasing and below n.
fn in_order(n: usize, vars: &[u32]) -> bool
    ensures { result ≡ in_order n vars.now }
{
    let mut low = 0;
    for v in vars {
        let v = *v as usize;
        if v < low || v >= n {
            return false;
        }
        low = v + 1;
    }
    true
}

// The lowest equation that is not in order; the constants are not read.
pub fn lowest_bad(system: &System) -> Option<usize>
    requires { starts_kept system.now.m (length system.now.vars.now) system.now.starts.now ≡ true }
    ensures { let s = system.now in (constants : List ℕ) → let low = lowest_bad s.n (equations s.m s.starts.now s.vars.now constants) in
        MatchOption result (low ≡ s.m) (λ i. (i < s.m) × (i ≡ low)) }
{
    for i in 0..system.m {
        if !in_order(system.n, system.variables(i)) {
            return Some(i);
        }
    }
    None
}
