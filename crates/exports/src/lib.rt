// The public calls under plain names, without structs: a second result is written through. `exports_c` hands them to C.
#![tactic(auto)]

pub mod lazy_elimination;
pub mod slow_elimination;

ghost use Rattle.std.specs.Prelude.{◌≡◌};
ghost use Rattle.answers.specs.Told.{Tells};
ghost use Rattle.equation.specs.Sums.{sum_call, TellsSum};
ghost use Rattle.system_check.specs.CheckCall.{check_call};
ghost use Rattle.answers.specs.Reported.{reported};
ghost use Rattle.system.specs.System.{equations};
ghost use Rattle.sparse_rules.specs.Cancelled.{sparse_cancels};
ghost use Rattle.sparse_rules.specs.SparseCall.{sparse_call};
ghost use Rattle.dense.specs.Call.{dense_call};
ghost use Rattle.exports.specs.Told.{told_number, told_place};

use answers::{Refusal, tell};
use dense_rows::DenseSystem;
use equation::Summed;
use system::System;

// `equation::sum`; the sum's length and constant go through `len` and `constant`, how many variables both lists had through `cancelled`.
pub fn orohkaril_sum(
    left: &[u32],
    right: &[u32],
    left_c: u64,
    right_c: u64,
    out: &mut [u32],
    len: &mut usize,
    constant: &mut u64,
    cancelled: &mut usize,
    place: &mut usize,
) -> u32
    ensures { TellsSum (sum_call left.now right.now left_c right_c out.old) result place.new len.new constant.new cancelled.new out.new }
{
    let answer = equation::sum(left, right, left_c, right_c, out);
    // a sum that is refused tells zeros
    let summed = answer.unwrap_or(Summed {
        len: 0,
        constant: 0,
        cancelled: 0,
    });
    *len = summed.len;
    *constant = summed.constant;
    *cancelled = summed.cancelled;
    tell(&answer, place)
}

// `system_check::check`: a refusal's number, 0 for yes, 6 for no.
pub fn orohkaril_check(
    n: usize,
    m: usize,
    starts: &[u32],
    vars: &[u32],
    constants: &[u64],
    solution: &[u64],
    place: &mut usize,
) -> u32
    ensures value { result ≡ told_number (check_call n m starts.now vars.now constants.now solution.now) }
    ensures place_after { place.new ≡ told_place (check_call n m starts.now vars.now constants.now solution.now) }
{
    let system = System {
        n,
        m,
        starts,
        vars,
        constants,
    };
    match system_check::check(&system, solution) {
        Ok(false) => tell(&Err::<(), Refusal>(Refusal::Unsolvable), place),
        said => tell(&said, place),
    }
}

// `sparse::gaussian_elimination`; how many variables cancelled is written through `cancelled`.
pub fn orohkaril_sparse(
    n: usize,
    m: usize,
    starts: &[u32],
    vars: &[u32],
    constants: &[u64],
    solution: &mut [u64],
    numbers: &mut [u32],
    words: &mut [u64],
    cancelled: &mut u64,
    place: &mut usize,
) -> u32
    ensures tells { Tells (sparse_call n m starts.now vars.now constants.now solution.old numbers.old words.old) result place.new solution.new numbers.new words.new }
    ensures cancelled_after { cancelled.new ≡ reported (sparse_call n m starts.now vars.now constants.now solution.old numbers.old words.old).answer (sparse_cancels (equations m starts.now vars.now constants.now)) }
{
    let system = System {
        n,
        m,
        starts,
        vars,
        constants,
    };
    let built = sparse::gaussian_elimination(&system, solution, numbers, words);
    *cancelled = built.cancelled;
    tell(&built.answer, place)
}

// `dense::dense_gaussian_elimination`.
pub fn orohkaril_dense(
    n: usize,
    m: usize,
    w: usize,
    rows: &[u64],
    constants: &[u64],
    solution: &mut [u64],
    numbers: &mut [u32],
    words: &mut [u64],
    place: &mut usize,
) -> u32
    ensures { Tells (dense_call n m w rows.now constants.now solution.old numbers.old words.old) result place.new solution.new numbers.new words.new }
{
    let system = DenseSystem {
        n,
        m,
        w,
        rows,
        constants,
    };
    tell(
        &dense::dense_gaussian_elimination(&system, solution, numbers, words),
        place,
    )
}
