// The calls of `exports` for programs in C, by the names of include/orohkaril.h: a slice is a pointer and a length.
// Each calls the function of its name there and promises the same.
#![tactic(auto)]

ghost use Rattle.std.specs.Prelude.{◌≡◌};
ghost use Rattle.answers.specs.Reported.{reported};
ghost use Rattle.answers.specs.Told.{Tells};
ghost use Rattle.equation.specs.Sums.{sum_call, TellsSum};
ghost use Rattle.system.specs.System.{equations};
ghost use Rattle.system_check.specs.CheckCall.{check_call};
ghost use Rattle.sparse_rules.specs.Cancelled.{sparse_cancels};
ghost use Rattle.sparse_rules.specs.SparseCall.{sparse_call};
ghost use Rattle.dense.specs.Call.{dense_call};
ghost use Rattle.slow_rules.specs.SlowCall.{slow_call};
ghost use Rattle.lazy.specs.Cancelled.{lazy_cancels};
ghost use Rattle.lazy_calls.specs.LazyCall.{lazy_call};
ghost use Rattle.exports.specs.Told.{told_number, told_place};

use exports::{lazy_elimination, slow_elimination};

#[unsafe(no_mangle)]
pub extern "C" fn orohkaril_sum(
    left: &[u32],
    right: &[u32],
    left_c: u64,
    right_c: u64,
    out: &mut [u32],
    len: &mut usize,
    constant: &mut u64,
    cancelled: &mut usize,
    place: &mut usize,
) -> u32
    ensures { TellsSum (sum_call left.now right.now left_c right_c out.old) result place.new len.new constant.new cancelled.new out.new }
{
    exports::orohkaril_sum(
        left, right, left_c, right_c, out, len, constant, cancelled, place,
    )
}

#[unsafe(no_mangle)]
pub extern "C" fn orohkaril_check(
    n: usize,
    m: usize,
    starts: &[u32],
    vars: &[u32],
    constants: &[u64],
    solution: &[u64],
    place: &mut usize,
) -> u32
    ensures value { result ≡ told_number (check_call n m starts.now vars.now constants.now solution.now) }
    ensures place_after { place.new ≡ told_place (check_call n m starts.now vars.now constants.now solution.now) }
{
    exports::orohkaril_check(n, m, starts, vars, constants, solution, place)
}

#[unsafe(no_mangle)]
pub extern "C" fn orohkaril_sparse(
    n: usize,
    m: usize,
    starts: &[u32],
    vars: &[u32],
    constants: &[u64],
    solution: &mut [u64],
    numbers: &mut [u32],
    words: &mut [u64],
    cancelled: &mut u64,
    place: &mut usize,
) -> u32
    ensures tells { Tells (sparse_call n m starts.now vars.now constants.now solution.old numbers.old words.old) result place.new solution.new numbers.new words.new }
    ensures cancelled_after { cancelled.new ≡ reported (sparse_call n m starts.now vars.now constants.now solution.old numbers.old words.old).answer (sparse_cancels (equations m starts.now vars.now constants.now)) }
{
    exports::orohkaril_sparse(
        n, m, starts, vars, constants, solution, numbers, words, cancelled, place,
    )
}

#[unsafe(no_mangle)]
pub extern "C" fn orohkaril_lazy(
    n: usize,
    m: usize,
    starts: &[u32],
    vars: &[u32],
    constants: &[u64],
    solution: &mut [u64],
    numbers: &mut [u32],
    words: &mut [u64],
    cancelled: &mut u64,
    place: &mut usize,
) -> u32
    ensures tells { Tells (lazy_call n m starts.now vars.now constants.now solution.old numbers.old words.old) result place.new solution.new numbers.new words.new }
    ensures cancelled_after { cancelled.new ≡ reported (lazy_call n m starts.now vars.now constants.now solution.old numbers.old words.old).answer (lazy_cancels n (equations m starts.now vars.now constants.now)) }
{
    lazy_elimination::orohkaril_lazy(
        n, m, starts, vars, constants, solution, numbers, words, cancelled, place,
    )
}

#[unsafe(no_mangle)]
pub extern "C" fn orohkaril_dense(
    n: usize,
    m: usize,
    w: usize,
    rows: &[u64],
    constants: &[u64],
    solution: &mut [u64],
    numbers: &mut [u32],
    words: &mut [u64],
    place: &mut usize,
) -> u32
    ensures { Tells (dense_call n m w rows.now constants.now solution.old numbers.old words.old) result place.new solution.new numbers.new words.new }
{
    exports::orohkaril_dense(n, m, w, rows, constants, solution, numbers, words, place)
}

#[unsafe(no_mangle)]
pub extern "C" fn orohkaril_slow(
    n: usize,
    m: usize,
    w: usize,
    rows: &[u64],
    constants: &[u64],
    solution: &mut [u64],
    numbers: &mut [u32],
    words: &mut [u64],
    place: &mut usize,
) -> u32
    ensures { Tells (slow_call n m w rows.now constants.now solution.old numbers.old words.old) result place.new solution.new numbers.new words.new }
{
    slow_elimination::orohkaril_slow(n, m, w, rows, constants, solution, numbers, words, place)
}
