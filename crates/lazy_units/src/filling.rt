// The last unit: the remaining checks and all filling.
ghost use Rattle.std.specs.Prelude.{◌≡◌, List};
ghost use Rattle.gf2.specs.Equation.{Equation};
ghost use Rattle.lazy.specs.Lazy.{State, fill, last_unit};
ghost use Rattle.lazy_units.specs.Units.{Over, end_of};
ghost use Rattle.lazy_units.specs.Ending.{MeetFits, met, FillAt, FillReady, UnitAt, UnitReady};

use lazy_setup::{Layout, Stand};
use rows::Unsolvable;

// The variable v gets the value that meets equation e.
fn fill_one(
    numbers: &[u32],
    words: &[u64],
    layout: Layout,
    e: usize,
    v: usize,
    solution: &mut [u64],
)
    requires { MeetFits numbers.now words.now layout.n layout.lengths e v solution.old }
    ensures { solution.new ≡ met numbers.now words.now layout.n layout.lengths e v solution.old }
{
    let len = numbers[layout.lengths + e] as usize;
    let p = e * layout.n;
    let sum = system_check::eval_vars(&numbers[p..p + len], solution);
    solution[v] = words[e] ^ sum;
}

// The k solved equations are filled in, in the order solved.
fn fill_solved(numbers: &[u32], words: &[u64], layout: Layout, k: usize, solution: &mut [u64])
    requires { FillReady layout.n layout.m layout k numbers.now words.now solution.old }
    ensures { (sys : List Equation) (s : State) → FillAt layout.n layout.m layout sys s k numbers.now words.now
        → solution.new ≡ fill s.rows s.solved solution.old }
{
    for i in 0..k {
        let e = numbers[layout.solved + i] as usize;
        let v = numbers[layout.pivots + i] as usize;
        fill_one(numbers, words, layout, e, v, solution);
    }
}

// What is left of the dense part is checked and solved, then the solved equations are filled in; the solution is written only where
// there is one.
pub fn finish(
    numbers: &[u32],
    words: &[u64],
    layout: Layout,
    stand: Stand,
    solution: &mut [u64],
) -> Result<(), Unsolvable>
    requires { UnitReady layout.n layout.m layout stand numbers.now words.now solution.old }
    ensures { (sys : List Equation) (s : State) → UnitAt layout.n layout.m layout sys s stand numbers.now words.now solution.old
        → Over (last_unit layout.n s) (end_of result) solution.old solution.new }
{
    let Layout { n, m, dense, .. } = layout;
    sparse_rows::back::finish_rows(&numbers[dense..], &words[m..], n, m, stand.dense, solution)?;
    fill_solved(numbers, words, layout, stand.solved, solution);
    Ok(())
}
