// The rows to echelon form, one outer row at a time.
ghost use Rattle.std.specs.Prelude.{◌≡◌, ◌≢◌, ◌+◌, ◌*◌, ◌^◌, ◌≤◌, ◌<◌, get_or, take};
ghost use Rattle.answers.specs.Sizes.{max_variables, max_equations};
ghost use Rattle.rows.specs.Picture.{Held, rows_of, row_at};
ghost use Rattle.sparse_rules.specs.Eliminate.{meeting, outer_row, echelon_form};
ghost use Rattle.sparse_rules.specs.Cancelled.{meeting_cancels, outer_row_cancels, sparse_cancels};
ghost use Rattle.sparse_rows.specs.Counts.{ahead};
ghost use Rattle.sparse_rows.specs.Reduce.{Alike, MeetsRows, Passes, Reduces};
ghost use Rattle.sparse_rows.specs.Reduction.{reduction_of};

pub use rows::{Counted, Unsolvable};

// What came of a meeting of row i and a later row j.
#[derive(Clone, Copy, PartialEq, Debug)]
pub enum Met {
    // An equation without variables whose constant is not 0.
    Clash,
    // Row i is 0 = 0 now.
    Identity,
    Both,
    // Row i is the sum of the two now, and is to meet row j again.
    Summed,
}

// .. and what fell away until then: two for each variable that cancelled.
#[derive(Clone, Copy, PartialEq, Debug)]
pub struct Encounter {
    pub met: Met,
    pub fallen: u64,
}

// Row `i` meets the later row `j`, which has no variables or begins as row `i` does; a sum that has variables begins above row `j`, and is left to
// meet it. What falls away is added to `fallen`.
fn meet_rows(
    numbers: &mut [u32],
    words: &mut [u64],
    n: usize,
    m: usize,
    i: usize,
    j: usize,
    fallen: u64,
) -> Encounter
    requires { Held n m numbers.old words.old × (i < j) × (j < m) × (n ≤ max_variables) × Alike n m i j numbers.old × (fallen ≤ 2 ^ 63) }
    ensures meets_rows { MeetsRows meeting n m i j numbers.old words.old numbers.new words.new result.met }
    ensures fallen_value { result.fallen ≡ fallen + 2 * meeting_cancels (row_at (rows_of n m numbers.old words.old) i) (row_at (rows_of n m numbers.old words.old) j) }
{
    if numbers[m * n + n + j] == 0 {
        if words[j] != 0 {
            return Encounter {
                met: Met::Clash,
                fallen,
            };
        }
        return Encounter {
            met: Met::Both,
            fallen,
        };
    }
    let with_sum = rows::add_rows(numbers, words, n, m, i, j, fallen);
    if numbers[m * n + n + i] == 0 {
        if words[i] != 0 {
            return Encounter {
                met: Met::Clash,
                fallen: with_sum, // a refused sum was made
            };
        }
        return Encounter {
            met: Met::Identity,
            fallen: with_sum,
        };
    }
    Encounter {
        met: Met::Summed,
        fallen: with_sum,
    }
}

// Row `i` meets the rows from row `j` on as far as their first variables decide: one that begins above row `i` stays, one that begins below changes
// places with it. Returns the first row that begins as row `i` does or has no variables, or `d`.
fn pass_rows(
    numbers: &mut [u32],
    words: &mut [u64],
    n: usize,
    m: usize,
    d: usize,
    i: usize,
    j: usize,
) -> usize
    requires { Held n m numbers.old words.old × (i < j) × (j ≤ d) × (d ≤ m) × (get_or numbers.old (m * n + n + i) 0 ≢ 0) }
    ensures passes { Passes n m d i j numbers.old words.old numbers.new words.new result }
    ensures result_after { ahead n m d i numbers.new words.new result ≡ ahead n m d i numbers.old words.old j }
{
    let lens = m * n + n;
    let mut u = numbers[i * n];
    for k in j..d {
        let v = numbers[k * n];
        if v <= u {
            if v == u {
                return k;
            }
            if numbers[lens + k] == 0 {
                return k;
            }
            rows::swap_rows(numbers, words, n, m, i, k);
            u = v;
        }
    }
    d
}

// One outer row: row `i` meets each later row of the first `d`.
pub fn outer_row(
    numbers: &mut [u32],
    words: &mut [u64],
    n: usize,
    m: usize,
    d: usize,
    i: usize,
) -> Counted<Result<(), Unsolvable>>
    requires { Held n m numbers.old words.old × (i < d) × (d ≤ m) × (n ≤ max_variables) }
    ensures reduces { Reduces (outer_row i) n m d numbers.old words.old numbers.new words.new (reduction_of result.end) }
    ensures cancelled_value { result.cancelled ≡ outer_row_cancels i (take d (rows_of n m numbers.old words.old)) }
{
    if numbers[m * n + n + i] == 0 {
        if words[i] != 0 {
            return Counted {
                end: Err(Unsolvable),
                cancelled: 0,
            };
        }
        return Counted {
            end: Ok(()),
            cancelled: 0,
        };
    }
    let mut j = pass_rows(numbers, words, n, m, d, i, i + 1);
    let mut fallen = 0u64;
    // Not a `for`: how far `j` goes on is handed back by the passing of rows.
    while j < d {
        let e = meet_rows(numbers, words, n, m, i, j, fallen);
        fallen = e.fallen;
        match e.met {
            Met::Clash => {
                return Counted {
                    end: Err(Unsolvable),
                    cancelled: fallen / 2,
                };
            }
            Met::Identity => {
                return Counted {
                    end: Ok(()),
                    cancelled: fallen / 2,
                };
            }
            Met::Both => j = pass_rows(numbers, words, n, m, d, i, j + 1),
            Met::Summed => j = pass_rows(numbers, words, n, m, d, i, j),
        }
    }
    Counted {
        end: Ok(()),
        cancelled: fallen / 2,
    }
}

// The first `d` rows to echelon form: every row but the last is an outer row.
pub fn echelon_form(
    numbers: &mut [u32],
    words: &mut [u64],
    n: usize,
    m: usize,
    d: usize,
) -> Counted<Result<(), Unsolvable>>
    requires { Held n m numbers.old words.old × (d ≤ m) × (n ≤ max_variables) × (m ≤ max_equations) }
    ensures reduces { Reduces echelon_form n m d numbers.old words.old numbers.new words.new (reduction_of result.end) }
    ensures cancelled_value { result.cancelled ≡ sparse_cancels (take d (rows_of n m numbers.old words.old)) }
{
    let mut cancelled = 0u64;
    for i in 0..d.saturating_sub(1) {
        let row = outer_row(numbers, words, n, m, d, i);
        cancelled += row.cancelled;
        if row.end.is_err() {
            return Counted {
                end: row.end,
                cancelled,
            };
        }
    }
    Counted {
        end: Ok(()),
        cancelled,
    }
}
