// What is lent beside a system.
ghost use Rattle.std.specs.Prelude.{◌≡◌};
ghost use Rattle.answers.specs.Answers.{rules_of};
ghost use Rattle.answers.specs.Calls.{lengths_rules};

use crate::refusal::Refusal;

// Whether the solution has n words, refused by 4, and each work area its room, refused by 5.
pub fn lengths_kept(
    n: usize,
    solution: &[u64],
    numbers: &[u32],
    numbers_room: usize,
    words: &[u64],
    words_room: usize,
) -> Result<(), Refusal>
    ensures { rules_of result ≡ lengths_rules n numbers_room words_room solution.now numbers.now words.now }
{
    if solution.len() != n {
        return Err(Refusal::WrongSolution);
    }
    if numbers.len() < numbers_room || words.len() < words_room {
        return Err(Refusal::ShortArea);
    }
    Ok(())
}
