// The room of the areas: how much there is, and what is zeroed of it.
ghost use Rattle.std.specs.Prelude.{◌≡◌, ◌≤◌, Bool, length};
ghost use Rattle.areas.specs.Stretch.{cleared};
ghost use Rattle.answers.specs.Sizes.{max_variables, max_equations};
ghost use Rattle.peel_gates.specs.Rooms.{numbers_room, bytes_room, Lent, Left};

use answers::{peel_high_bytes, peel_high_numbers, peel_low_numbers};
use areas::fill;

// Which of the two peelers runs: how much room it asks for.
pub trait Memory {
    // whether it is the peeler that asks for more
    ghost high: { Bool };

    fn numbers_room(n: usize, m: usize) -> usize
        requires { (n ≤ max_variables) × (m ≤ max_equations) }
        ensures { result ≡ numbers_room high n m };

    fn bytes_room(n: usize, m: usize) -> usize
        requires { (n ≤ max_variables) × (m ≤ max_equations) }
        ensures { result ≡ bytes_room high n m };
}

// Keeps the number and the side of each peeled edge.
pub struct HighMem;

// Keeps a vertex of each peeled edge.
pub struct LowMem;

impl Memory for HighMem {
    ghost use Rattle.std.specs.Prelude.{true};

    ghost high = { true };

    fn numbers_room(n: usize, m: usize) -> usize {
        peel_high_numbers(n, m)
    }

    fn bytes_room(n: usize, m: usize) -> usize {
        peel_high_bytes(n, m)
    }
}

impl Memory for LowMem {
    ghost use Rattle.std.specs.Prelude.{false};

    ghost high = { false };

    fn numbers_room(n: usize, _m: usize) -> usize {
        peel_low_numbers(n)
    }

    fn bytes_room(n: usize, _m: usize) -> usize {
        n
    }
}

// Makes an empty graph of n vertices.
#[tactic(auto, using(areas::proofs::Stretch::cleared_is_put))]
pub fn empty_graph(n: usize, numbers: &mut [u32], bytes: &mut [u8])
    requires { (n ≤ length numbers.old) × (n ≤ length bytes.old) }
    ensures { (numbers.new ≡ cleared n numbers.old) × (bytes.new ≡ cleared n bytes.old) }
{
    fill(numbers, 0, n, 0);
    fill(bytes, 0, n, 0);
}

// Zeroes the room of both areas.
#[tactic(auto, using(areas::proofs::Stretch::cleared_is_put))]
pub fn clear_room<M: Memory>(n: usize, m: usize, numbers: &mut [u32], bytes: &mut [u8])
    requires { Lent M.high n m numbers.old bytes.old }
    ensures { Left M.high n m numbers.old bytes.old numbers.new bytes.new }
{
    fill(numbers, 0, M::numbers_room(n, m), 0);
    fill(bytes, 0, M::bytes_room(n, m), 0);
}
