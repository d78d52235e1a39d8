// The lines that tell what a call comes to.
ghost use Rattle.std.specs.Prelude.{◌≡◌, ◌+◌, ◌*◌, ◌≤◌, length, eqb};
ghost use Rattle.answers.specs.Answers.{answer_by};
ghost use Rattle.link_lines.specs.Lines.{most_ended, most_answer};
ghost use Rattle.link_lines.specs.Outcomes.{outcome, refusal_text, outcome_text};
ghost use Rattle.link_lines.specs.Text.{Adds};

use crate::text::Text;
use answers::Numbered;

// Whether values follow an answer of that number.
fn has_values(number: u32) -> bool
    ensures { result ≡ eqb number 0 }
{
    number == 0
}

impl<'a> Text<'a> {
    // Adds an answer that no values follow.
    pub fn refusal<T, E: Numbered>(&mut self, answer: &Result<T, E>)
        requires { self.old.end + most_answer ≤ length self.old.out.now }
        ensures { Adds (refusal_text (answer_by E.answer answer.now)) self.old self.new }
    {
        self.answer_line(answers::number(answer), answers::place(answer));
    }

    // Adds the answer, and the values after 0 only.
    pub fn outcome<T, E: Numbered>(&mut self, answer: &Result<T, E>, values: &[u64])
        requires { self.old.end + (most_answer + length values.now * most_ended) ≤ length self.old.out.now }
        ensures { Adds (outcome_text (outcome (answer_by E.answer answer.now) values.now)) self.old self.new }
    {
        self.refusal(answer);
        if has_values(answers::number(answer)) {
            self.values(values);
        }
    }
}
