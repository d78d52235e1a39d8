// The lent system in the work area: rows, lengths, marks and the first list.
ghost use Rattle.std.specs.Prelude.{◌≡◌, List, ℕ, ◌+◌, ◌*◌, ◌<◌, ◌≤◌, length, get_or, replicate};
ghost use Rattle.answers.specs.Sizes.{max_equations};
ghost use Rattle.areas.specs.Stretch.{stretch, put};
ghost use Rattle.system.specs.System.{equations};
ghost use Rattle.system.specs.Fits.{Fits};
ghost use Rattle.lazy_setup.specs.Area.{rows_of};
ghost use Rattle.lazy_setup.specs.Tables.{spans, firsts};

use crate::Layout;
use system::System;

// Copies the variables of each equation into its row of n numbers; the rows begin at 0 and hold zeros. The constants are not
// read.
fn load_rows(system: &System, numbers: &mut [u32])
    requires { let s = system.now in let room = s.m * s.n in Fits s.n s.m s.starts.now s.vars.now (replicate s.m 0)
        × (room ≤ length numbers.old) × (stretch 0 room numbers.old ≡ replicate room 0) }
    ensures { let s = system.now in (constants : List ℕ)
        → numbers.new ≡ put 0 (rows_of s.n (equations s.m s.starts.now s.vars.now constants)) numbers.old }
{
    for i in 0..system.m {
        areas::copy(system.variables(i), numbers, i * system.n);
    }
}

// Writes the length of each equation from `at` on.
fn write_lengths(system: &System, numbers: &mut [u32], at: usize)
    requires { let s = system.now in (s.m ≤ max_equations) × (length s.starts.now ≡ s.m + 1)
        × ((i : ℕ) → i < s.m → get_or s.starts.now i 0 ≤ get_or s.starts.now (i + 1) 0) × (at + s.m ≤ length numbers.old) }
    ensures { numbers.new ≡ put at (spans system.now.m system.now.starts.now) numbers.old }
{
    for i in 0..system.m {
        numbers[at + i] = system.starts[i + 1] - system.starts[i];
    }
}

// Lists the equations of priority 0 or 1, from the highest number down: how many there are.
pub fn first_list(numbers: &mut [u32], at: Layout) -> usize
    requires { (at.m ≤ max_equations) × (at.priority + at.m ≤ at.equations) × (at.equations + at.m ≤ length numbers.old) }
    ensures value { result ≡ length (firsts (stretch at.priority at.m numbers.old) at.m) }
    ensures numbers_after { numbers.new ≡ put at.equations (firsts (stretch at.priority at.m numbers.old) at.m) numbers.old }
{
    let mut top = 0;
    for i in (0..at.m).rev() {
        let first = numbers[at.priority + i] <= 1;
        if first {
            numbers[at.equations + top] = i as u32;
            top += 1;
        }
    }
    top
}

// The rows, their lengths, the priorities and the marks of the idle variables. The constants are not read.
pub fn load(system: &System, numbers: &mut [u32], at: Layout)
    requires fits { let s = system.now in Fits s.n s.m s.starts.now s.vars.now (replicate s.m 0)
        × (s.m * s.n ≤ length numbers.old) × (at.lengths + s.m ≤ length numbers.old)
        × (at.idle + s.n ≤ length numbers.old) × (at.priority + s.m ≤ length numbers.old) }
    requires numbers_value { stretch 0 (system.now.m * system.now.n) numbers.old ≡ replicate (system.now.m * system.now.n) 0 }
    ensures { let s = system.now in let lengths = spans s.m s.starts.now in (constants : List ℕ)
        → let rows = rows_of s.n (equations s.m s.starts.now s.vars.now constants) in
        numbers.new ≡ put at.idle (replicate s.n 1) (put at.priority lengths (put at.lengths lengths (put 0 rows numbers.old))) }
{
    load_rows(system, numbers);
    write_lengths(system, numbers, at.lengths);
    write_lengths(system, numbers, at.priority);
    areas::fill(numbers, at.idle, at.idle + system.n, 1);
}
