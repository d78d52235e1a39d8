// The ways of lending that each case is called with.
ghost use Rattle.std.specs.Prelude.{◌≡◌, ◌≤◌};
ghost use Rattle.answers.specs.Answers.{refusal_of};
ghost use Rattle.answers.specs.Numbers.{number_of, place_of};
ghost use Rattle.replay_cases.specs.Judged.{plainly};
ghost use Rattle.replay_cases.specs.Lent.{Lendable, no_room, lengths_for, lent_for, lacking, wanted_for, zeros_after, solution_left};

use crate::said::{Said, refuses};
use answers::{Numbered, Refusal};
use lent_cells::cells::left;

// Cells of the solution, of the numbers, and of the words or bytes.
#[derive(Clone, Copy, PartialEq, Debug)]
pub struct Room {
    pub solution: usize,
    pub numbers: usize,
    pub others: usize,
}

impl Room {
    pub const NONE: Room = Room {
        solution: 0,
        numbers: 0,
        others: 0,
    };
}

#[derive(Clone, Copy, PartialEq, Debug)]
pub enum Way {
    // Exactly the room.
    Exact,
    More,
    // One number too few.
    ShortNumbers,
    // One word or byte too few.
    ShortOthers,
    // One cell of the solution too many.
    LongSolution,
}

impl Way {
    pub const ALL: [Way; 5] = [
        Way::Exact,
        Way::More,
        Way::ShortNumbers,
        Way::ShortOthers,
        Way::LongSolution,
    ];
}

// Any number has a way: past the last it is exactly the room.
impl From<usize> for Way {
    ghost use Rattle.replay_cases.specs.Lent.{way_of};

    ghost from_gives = { λ number way. way ≡ way_of number };

    fn from(number: usize) -> Way {
        match number {
            1 => Way::More,
            2 => Way::ShortNumbers,
            3 => Way::ShortOthers,
            4 => Way::LongSolution,
            _ => Way::Exact,
        }
    }
}

// The lengths to lend.
pub fn lent_as(way: Way, room: Room) -> Room
    ensures value { result ≡ lent_for way room }
    ensures lendable { Lendable result }
{
    if 1021 < room.solution || 65533 < room.numbers || 1021 < room.others {
        return Room::NONE;
    }
    lengths(way, room)
}

fn lengths(way: Way, room: Room) -> Room
    requires { (room.solution ≤ 1021) × (room.numbers ≤ 65533) × (room.others ≤ 1021) }
    ensures { result ≡ lengths_for way room }
{
    let mut lent = room;
    match way {
        Way::Exact => {}
        Way::More => {
            lent.numbers += 3;
            lent.others += 2;
        }
        Way::ShortNumbers => lent.numbers = room.numbers.saturating_sub(1),
        Way::ShortOthers => lent.others = room.others.saturating_sub(1),
        Way::LongSolution => lent.solution += 1,
    }
    lent
}

// Whether a work area is lent one cell too few.
fn lacks(way: Way, room: Room) -> bool
    ensures { result ≡ lacking way room }
{
    match way {
        Way::ShortNumbers => 0 < room.numbers,
        Way::ShortOthers => 0 < room.others,
        _ => false,
    }
}

// What must be answered to what is lent so: the rules that come before the areas go before them.
pub fn wanted(way: Way, room: Room, said: Said) -> Said
    ensures { result ≡ wanted_for way room said }
{
    if refuses(said.number) {
        return said;
    }
    if lacks(way, room) {
        return refused(Refusal::ShortArea);
    }
    if way == Way::LongSolution {
        return refused(Refusal::WrongSolution);
    }
    said
}

fn refused(refusal: Refusal) -> Said
    ensures { result ≡ plainly (number_of (refusal_of refusal)) (place_of (refusal_of refusal)) }
{
    Said {
        number: u64::from(refusal.number()),
        place: refusal.place() as u64,
        panicked: 0,
    }
}

// How many cells of a room must be zero after an answer: all after a run, none after a refusal.
pub fn zeros_after(number: u64, room: usize) -> usize
    ensures { result ≡ zeros_after number room }
{
    if refuses(number) { 0 } else { room }
}

// Whether the solution is the expected one after 0, and as it was lent after every other number.
pub fn solution_left(number: u64, solution: &[u64], expected: &[u64]) -> bool
    ensures { result ≡ solution_left number solution.now expected.now }
{
    if number == 0 {
        solution == expected
    } else {
        left(solution, 0)
    }
}
