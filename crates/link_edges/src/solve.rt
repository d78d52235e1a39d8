// The low-memory peeler on the edges of a file.
ghost use Rattle.std.specs.Prelude.{◌≡◌};
ghost use Rattle.answers.specs.Answers.{answer_by, unpeeled_of};
ghost use Rattle.link_form.specs.Serving.{rows_in_file};
ghost use Rattle.link_edges.specs.Edges.{lent_call, edges_call};

use crate::load::load_edges;
use answers::Unpeeled;
use link_form::{Kind, LENT_BYTES, LENT_NUMBERS, ServedFile};
use peelers::calls::peel_by_sig_vals_low_mem;
use peeling::numbers::Edge;

// Lends the work areas, all zero.
fn peel_lent(n: usize, edges: &[Edge], solution: &mut [u64]) -> Result<(), Unpeeled>
    ensures value { answer_by unpeeled_of result ≡ (lent_call n edges.now solution.old).answer }
    ensures solution_after { solution.new ≡ (lent_call n edges.now solution.old).solution }
{
    let mut numbers = [0; LENT_NUMBERS];
    let mut bytes = [0; LENT_BYTES];
    peel_by_sig_vals_low_mem(n, edges, solution, &mut numbers, &mut bytes)
}

// Peels the edges of a file that is served.
pub fn solve_edges(file: &ServedFile, solution: &mut [u64]) -> Result<(), Unpeeled>
    requires { file.now.form.kind ≡ Kind.Peel }
    ensures value { answer_by unpeeled_of result ≡ (edges_call file.now.form.n (rows_in_file file.now) solution.old).answer }
    ensures solution_after { solution.new ≡ (edges_call file.now.form.n (rows_in_file file.now) solution.old).solution }
{
    let m = file.form.m;
    let table = load_edges(&file.rows(), m);
    peel_lent(file.form.n, &table[..m], solution)
}
