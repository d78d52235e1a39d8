// The call that a file asks for.
ghost use Rattle.std.specs.Prelude.{◌≡◌};
ghost use Rattle.answers.specs.Answers.{answer_by, unpeeled_of};
ghost use Rattle.link_file.specs.Text.{served_file};

use answers::Unpeeled;
use link_form::{Kind, ServedFile};

// Solves by the call of the kind.
pub fn solve(file: &ServedFile, solution: &mut [u64]) -> Result<(), Unpeeled>
    ensures value { answer_by unpeeled_of result ≡ (served_file file.now solution.old).answer }
    ensures solution_after { solution.new ≡ (served_file file.now solution.old).values }
{
    if file.form.kind == Kind::Peel {
        return link_edges::solve_edges(file, solution);
    }
    Ok(link_rows::solve_rows(file, solution)?)
}
