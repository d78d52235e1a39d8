// What a solver answered and left, held to a case.
ghost use Rattle.std.specs.Prelude.{◌≡◌, map};
ghost use Rattle.answers.specs.Answers.{answer_by};
ghost use Rattle.replay_cases.specs.Lent.{judged_by};

use crate::lend::{Room, solution_left, zeros_after};
use crate::said::{Said, agrees};
use answers::Numbered;
use lent_cells::cells::{Cell, left};

// Whether the answer, the solution and both areas are as they must be.
pub fn judged<T, E: Numbered, C: Cell>(
    answer: &Result<T, E>,
    want: Said,
    room: Room,
    solution: &[u64],
    found: &[u64],
    numbers: &[u32],
    others: &[C],
) -> bool
    ensures { result ≡ judged_by (answer_by E.answer answer.now) want room solution.now found.now numbers.now (map C.wide others.now) }
{
    agrees(answer, want)
        && solution_left(want.number, solution, found)
        && left(numbers, zeros_after(want.number, room.numbers))
        && left(others, zeros_after(want.number, room.others))
}
