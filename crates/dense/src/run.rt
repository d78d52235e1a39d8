// The call and the run that the dense engines share.
ghost use Rattle.std.specs.Prelude.{◌≡◌, ◌*◌, ◌≤◌, length};
ghost use Rattle.areas.specs.Stretch.{cleared};
ghost use Rattle.answers.specs.Sizes.{dense_numbers, dense_words};
ghost use Rattle.answers.specs.Answers.{Kept, answer_of};
ghost use Rattle.answers.specs.Numbers.{number_of, place_of};
ghost use Rattle.answers.specs.Told.{Tells};
ghost use Rattle.dense_rows.specs.Areas.{SameArea, Holds};
ghost use Rattle.dense_rows.specs.Rules.{rules_in, rows_lent};
ghost use Rattle.dense.specs.Engines.{run_call, engine_call};

use crate::engine::Engine;
use answers::Refusal;
use dense_rows::{Area, DenseSystem};
use dense_walk::walk::constant_left;

// The rows, and after them the constants.
pub fn load(system: &DenseSystem, area: &mut Area)
    requires { (system.now.m * system.now.w ≤ length system.now.rows.now) × (system.now.m ≤ length system.now.constants.now) × (area.old.m ≡ system.now.m) × (area.old.w ≡ system.now.w) }
    ensures { Holds area.old (rows_lent system.now) area.new }
{
    let size = system.m * system.w;
    areas::copy(&system.rows[..size], area.words, 0);
    areas::copy(&system.constants[..system.m], area.words, size);
}

// The room of both areas is zero again.
pub fn clear_room(area: &mut Area, numbers: &mut [u32])
    requires { dense_numbers area.old.m ≤ length numbers.old }
    ensures same { SameArea area.old area.new }
    ensures numbers_after { numbers.new ≡ cleared (dense_numbers area.old.m) numbers.old }
    ensures words_after { area.new.words.now ≡ cleared (dense_words area.old.m area.old.w) area.old.words.now }
{
    let room = area.m * area.w + area.m;
    areas::fill(numbers, 0, area.m, 0);
    areas::fill(area.words, 0, room, 0);
}

// The run in an area of the system's size: the answer, the solution, and the areas with their room zero.
fn run<E: Engine>(
    system: &DenseSystem,
    solution: &mut [u64],
    numbers: &mut [u32],
    area: &mut Area,
) -> Result<(), Refusal>
    requires { (rules_in system.now ≡ Kept) × (length solution.old ≡ system.now.n) × (dense_numbers system.now.m ≤ length numbers.old) × (area.old.m ≡ system.now.m) × (area.old.w ≡ system.now.w) }
    ensures same { SameArea area.old area.new }
    ensures told { Tells (run_call E.elimination system.now solution.old numbers.old area.old.words.now) (number_of (answer_of result)) (place_of (answer_of result)) solution.new numbers.new area.new.words.now }
{
    load(system, area);
    let rank = E::reduce(system.n, area, numbers);
    if constant_left(area.view(), rank) {
        clear_room(area, numbers);
        return Err(Refusal::Unsolvable);
    }
    // what is no pivot stays 0
    areas::fill(solution, 0, system.n, 0);
    E::read(area, &numbers[..rank], solution);
    clear_room(area, numbers);
    Ok(())
}

// The run of a system that keeps its rules, in lent words.
pub fn solve<E: Engine>(
    system: &DenseSystem,
    solution: &mut [u64],
    numbers: &mut [u32],
    words: &mut [u64],
) -> Result<(), Refusal>
    requires { (rules_in system.now ≡ Kept) × (length solution.old ≡ system.now.n) × (dense_numbers system.now.m ≤ length numbers.old) × (dense_words system.now.m system.now.w ≤ length words.old) }
    ensures { Tells (run_call E.elimination system.now solution.old numbers.old words.old) (number_of (answer_of result)) (place_of (answer_of result)) solution.new numbers.new words.new }
{
    let mut area = Area {
        m: system.m,
        w: system.w,
        words,
    };
    run::<E>(system, solution, numbers, &mut area)
}

// The rules 1 to 3 of the system, then 4 and 5 of what is lent beside it, then the run.
pub fn solve_by<E: Engine>(
    system: &DenseSystem,
    solution: &mut [u64],
    numbers: &mut [u32],
    words: &mut [u64],
) -> Result<(), Refusal>
    ensures { Tells (engine_call E.elimination system.now solution.old numbers.old words.old) (number_of (answer_of result)) (place_of (answer_of result)) solution.new numbers.new words.new }
{
    system.rules()?;
    let room = answers::dense_words(system.m, system.w);
    answers::lengths_kept(system.n, solution, numbers, system.m, words, room)?;
    solve::<E>(system, solution, numbers, words)
}
