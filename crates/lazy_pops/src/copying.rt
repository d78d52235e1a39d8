// Equations of priority 0: passed over, refused, or copied to the dense part.
ghost use Rattle.std.specs.Prelude.{◌≡◌, List, ℕ};
ghost use Rattle.gf2.specs.Equation.{Equation};
ghost use Rattle.lazy.specs.Lazy.{State, pop_dense};
ghost use Rattle.lazy_pops.specs.Writes.{CopyAt, CopyReady, CopyDone};
ghost use Rattle.lazy_pops.specs.Pops.{EquationAt, DenseReady, After};
ghost use Rattle.lazy_pops.specs.Step.{step_of};

use lazy_setup::{Layout, Stand};
use rows::Unsolvable;

// Equation e, which has `len` variables, becomes row d of the dense part.
fn copy_dense(
    numbers: &mut [u32],
    words: &mut [u64],
    layout: Layout,
    e: usize,
    len: usize,
    d: usize,
)
    requires { CopyReady layout.n layout.m layout e len d numbers.old words.old }
    ensures { (sys : List Equation) (s : State) → CopyAt layout.n layout.m layout sys s e len d numbers.old words.old
        → CopyDone layout.n layout.m layout sys s e numbers.new words.new }
{
    let Layout { n, m, dense, .. } = layout;
    areas::copy_within(numbers, e * n, len, dense + d * n);
    numbers[dense + (m * n + (n + d))] = len as u32;
    words[m + d] = words[e];
}

// Equation e was popped, and its priority is 0.
pub fn pop_dense(
    numbers: &mut [u32],
    words: &mut [u64],
    layout: Layout,
    stand: Stand,
    e: u32,
) -> Result<Stand, Unsolvable>
    requires { DenseReady layout.n layout.m layout stand e numbers.old words.old }
    ensures { (sys : List Equation) (s : State) (es : List ℕ) → EquationAt layout.n layout.m layout sys s e es 0 stand numbers.old words.old
        → After layout.n layout.m layout sys (pop_dense e es s) (step_of result) numbers.new words.new }
{
    let len = numbers[layout.lengths + e as usize] as usize;
    if len != 0 {
        copy_dense(numbers, words, layout, e as usize, len, stand.dense);
        return Ok(Stand {
            dense: stand.dense + 1,
            ..stand
        });
    }
    let clash = words[e as usize] != 0;
    if clash {
        return Err(Unsolvable);
    }
    Ok(stand)
}
