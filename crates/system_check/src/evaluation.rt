// The values of a solution against the equations.
ghost use Rattle.std.specs.Prelude.{◌≡◌, ◌<◌, length};
ghost use Rattle.gf2.specs.Equation.{Each, eval_vars};
ghost use Rattle.system.specs.Fits.{Fits};
ghost use Rattle.system.specs.Lent.{equations_in};
ghost use Rattle.system_check.specs.CheckCall.{all_met};

use system::System;

// The XOR of the values of the listed variables.
pub fn eval_vars(vars: &[u32], values: &[u64]) -> u64
    requires { Each (λ v. v < length values.now) vars.now }
    ensures { result ≡ eval_vars vars.now values.now }
{
    let mut sum = 0;
    for v in vars {
        sum ^= values[*v as usize];
    }
    sum
}

// Whether the solution meets each equation of the system.
pub fn all_met(system: &System, solution: &[u64]) -> bool
    requires { Fits (length solution.now) system.now.m system.now.starts.now system.now.vars.now system.now.constants.now }
    ensures { result ≡ all_met solution.now (equations_in system.now) }
{
    for i in 0..system.m {
        if eval_vars(system.variables(i), solution) != system.constants[i] {
            return false;
        }
    }
    true
}
