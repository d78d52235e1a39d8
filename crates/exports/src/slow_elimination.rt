// The slow dense engine under a plain name.
ghost use Rattle.slow_rules.specs.SlowCall.{slow_call};
ghost use Rattle.answers.specs.Told.{Tells};

use answers::tell;
use dense_rows::DenseSystem;

// `slow_dense::slow_gaussian_elimination`.
pub fn orohkaril_slow(
    n: usize,
    m: usize,
    w: usize,
    rows: &[u64],
    constants: &[u64],
    solution: &mut [u64],
    numbers: &mut [u32],
    words: &mut [u64],
    place: &mut usize,
) -> u32
    ensures { Tells (slow_call n m w rows.now constants.now solution.old numbers.old words.old) result place.new solution.new numbers.new words.new }
{
    let system = DenseSystem {
        n,
        m,
        w,
        rows,
        constants,
    };
    tell(
        &slow_dense::slow_gaussian_elimination(&system, solution, numbers, words),
        place,
    )
}
