// The rows of a link file, solved by sparse or lazy elimination.
#![tactic(auto)]

ghost use Rattle.std.specs.Prelude.{◌≡◌};
ghost use Rattle.answers.specs.Answers.{answer_of};
ghost use Rattle.link_form.specs.Kinds.{number_of_kind};
ghost use Rattle.link_form.specs.Lent.{Served, file_rows};
ghost use Rattle.link_rows.specs.RowsCall.{solver_on, laid_call_on, rows_call, file_call};

use answers::Refusal;
use link_form::{Form, Kind, LENT_NUMBERS, LENT_WORDS, MOST_LISTED, MOST_ROWS, ServedFile};
use system::System;

// Solves by the solver of the kind, on the work areas that are lent.
fn solve_by_kind(
    kind: Kind,
    system: &System,
    solution: &mut [u64],
    numbers: &mut [u32],
    words: &mut [u64],
) -> Result<(), Refusal>
    ensures value { answer_of result ≡ (solver_on (number_of_kind kind) system.now solution.old numbers.old words.old).answer }
    ensures solution_after { solution.new ≡ (solver_on (number_of_kind kind) system.now solution.old numbers.old words.old).solution }
{
    let built = if kind == Kind::Lazy {
        lazy_calls::lazy_gaussian_elimination(system, solution, numbers, words)
    } else {
        sparse::gaussian_elimination(system, solution, numbers, words)
    };
    built.answer
}

// Lends the work areas, all zero.
fn solve_laid(kind: Kind, system: &System, solution: &mut [u64]) -> Result<(), Refusal>
    ensures value { answer_of result ≡ (laid_call_on (number_of_kind kind) system.now solution.old).answer }
    ensures solution_after { solution.new ≡ (laid_call_on (number_of_kind kind) system.now solution.old).solution }
{
    let mut numbers = [0; LENT_NUMBERS];
    let mut words = [0; LENT_WORDS];
    solve_by_kind(kind, system, solution, &mut numbers, &mut words)
}

// Lays out the rows of a file that is served, and solves them.
pub fn solve_rows(file: &ServedFile, solution: &mut [u64]) -> Result<(), Refusal>
    ensures value { answer_of result ≡ (file_call file.now solution.old).answer }
    ensures solution_after { solution.new ≡ (file_call file.now solution.old).solution }
{
    let mut starts = [0; MOST_ROWS + 1];
    let mut vars = [0; MOST_LISTED];
    let mut constants = [0; MOST_ROWS];
    let Form { kind, n, m, .. } = file.form;
    let t = link_load::load_rows(&file.rows(), m, &mut starts, &mut vars, &mut constants);
    let system = System {
        n,
        m,
        starts: &starts[..m + 1],
        vars: &vars[..t],
        constants: &constants[..m],
    };
    solve_laid(kind, &system, solution)
}

// The same of a file that is served by the number of its kind.
pub fn solve_rows_of(
    bytes: &[u8],
    kind: u64,
    n: usize,
    m: usize,
    t: usize,
    solution: &mut [u64],
) -> Result<(), Refusal>
    requires { Served kind n m bytes.now }
    ensures value { answer_of result ≡ (rows_call kind n (file_rows kind m bytes.now) solution.old).answer }
    ensures solution_after { solution.new ≡ (rows_call kind n (file_rows kind m bytes.now) solution.old).solution }
{
    let kind = Kind::standing_for(kind);
    let file = ServedFile {
        bytes,
        form: Form { kind, n, m, t },
    };
    solve_rows(&file, solution)
}
