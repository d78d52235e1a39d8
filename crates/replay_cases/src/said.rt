// What a case says must be answered.
ghost use Rattle.std.specs.Prelude.{◌≡◌, get_or};
ghost use Rattle.answers.specs.Answers.{answer_by};
ghost use Rattle.replay_cases.specs.Judged.{is_refusal, said_by, agreement, verdict_of};

use answers::Numbered;

#[derive(Clone, Copy, PartialEq, Debug)]
pub struct Said {
    pub number: u64,
    pub place: u64,
    // 1 where the Rust panicked; no other number of a file says so.
    pub panicked: u64,
}

// What came of a case.
#[derive(Clone, Copy, PartialEq, Debug)]
pub enum Verdict {
    // The Rust answered, and so was answered here.
    Same,
    // The Rust panicked, and here it is refused.
    Refused,
    // The Rust answered, and the rules have it refused here.
    Departed,
    Different,
}

// From the list's first three numbers; a shorter list says what no call answers.
pub fn said_of(list: &[u64]) -> Said
    ensures { result ≡ said_by list.now }
{
    match list {
        [number, place, panicked, ..] => Said {
            number: *number,
            place: *place,
            panicked: *panicked,
        },
        // the definition's number that no call answers, so that such a case differs
        _ => Said {
            number: u64::MAX,
            place: 0,
            panicked: 0,
        },
    }
}

// The word at `i`, 0 past the end.
pub fn word_at(words: &[u64], i: usize) -> u64
    ensures { result ≡ get_or words.now i 0 }
{
    words.get(i).copied().unwrap_or(0)
}

// The number at `i`, 0 past the end.
pub fn number_at(numbers: &[u32], i: usize) -> u32
    ensures { result ≡ get_or numbers.now i 0 }
{
    numbers.get(i).copied().unwrap_or(0)
}

pub fn agrees<T, E: Numbered>(answer: &Result<T, E>, said: Said) -> bool
    ensures { result ≡ agreement (answer_by E.answer answer.now) said }
{
    let number = u64::from(answers::number(answer));
    let place = answers::place(answer) as u64;
    number == said.number && place == said.place
}

pub fn came_of(agreed: bool, said: Said) -> Verdict
    ensures { result ≡ verdict_of agreed said }
{
    if !agreed {
        return Verdict::Different;
    }
    if said.panicked == 1 {
        return Verdict::Refused;
    }
    if refuses(said.number) {
        return Verdict::Departed;
    }
    Verdict::Same
}

// Whether the number is given before a run.
pub fn refuses(number: u64) -> bool
    ensures { result ≡ is_refusal number }
{
    0 < number && number < 6
}
