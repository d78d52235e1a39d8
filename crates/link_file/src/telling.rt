// The lines of an answer.
ghost use Rattle.std.specs.Prelude.{◌≡◌, ◌+◌, ◌≤◌, length};
ghost use Rattle.areas.specs.Stretch.{zeros};
ghost use Rattle.link_form.specs.File.{read_file, form_of};
ghost use Rattle.link_form.specs.Forms.{described_by};
ghost use Rattle.link_form.specs.Kinds.{number_of_kind};
ghost use Rattle.link_lines.specs.Outcomes.{outcome_text};
ghost use Rattle.link_lines.specs.Text.{Adds};
ghost use Rattle.link_file.specs.Text.{served_file, file_link, answered, most_outcome};

use crate::solving::solve;
use answers::Refusal;
use link_form::{Form, MOST_VARIABLES, ServedFile};
use link_lines::Text;

// Solves in the cells that are lent, and writes the outcome.
fn solve_and_write(file: &ServedFile, solution: &mut [u64], text: &mut Text)
    requires cells { length solution.old ≡ file.now.form.n }
    requires room { text.old.end + most_outcome ≤ length text.old.out.now }
    ensures { Adds (outcome_text (served_file file.now solution.old)) text.old text.new }
{
    let answer = solve(file, solution);
    text.outcome(&answer, solution);
}

// Lends n cells, all zero.
fn write_served(file: &ServedFile, text: &mut Text)
    requires { text.old.end + most_outcome ≤ length text.old.out.now }
    ensures { Adds (outcome_text (served_file file.now (zeros file.now.form.n))) text.old text.new }
{
    let mut solution = [0; MOST_VARIABLES];
    solve_and_write(file, &mut solution[..file.form.n], text);
}

// Writes the answer for a file that is described: 1 for a size above the largest, before any call.
pub fn write_answer(bytes: &[u8], form: &Form, text: &mut Text)
    requires read { form_of (read_file bytes.now) ≡ described_by form.now }
    requires room { text.old.end + most_outcome ≤ length text.old.out.now }
    ensures { Adds (outcome_text (answered (file_link (number_of_kind form.now.kind) form.now.n form.now.m bytes.now))) text.old text.new }
{
    if form.is_served() {
        let file = ServedFile { bytes, form: *form };
        write_served(&file, text);
    } else {
        text.refusal(&Err::<(), Refusal>(Refusal::TooLarge));
    }
}
