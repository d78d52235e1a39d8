// The values of a lent system's solution: `check` says whether they meet every equation.
#![tactic(auto)]

mod evaluation;

ghost use Rattle.std.specs.Prelude.{◌≡◌};
ghost use Rattle.system_check.specs.CheckCall.{checked_of, check_in};

use answers::Refusal;
pub use evaluation::eval_vars;
use system::System;

// Whether the solution meets every equation of the system.
pub fn check(system: &System, solution: &[u64]) -> Result<bool, Refusal>
    ensures { checked_of result ≡ check_in system.now solution.now }
{
    system.rules()?;
    if solution.len() != system.n {
        return Err(Refusal::WrongSolution);
    }
    Ok(evaluation::all_met(system, solution))
}
