// The lent system as rows of the areas.
ghost use Rattle.std.specs.Prelude.{◌≤◌, length};
ghost use Rattle.answers.specs.Sizes.{row_numbers, row_words};
ghost use Rattle.rows.specs.Picture.{Became};
ghost use Rattle.system.specs.Lent.{FitsIn, equations_in};

use system::System;

// Copies the equations of the lent system into the areas.
pub fn load(system: &System, numbers: &mut [u32], words: &mut [u64])
    requires { FitsIn system.now × (row_numbers system.now.n system.now.m ≤ length numbers.old) × (row_words system.now.m ≤ length words.old) }
    ensures { Became system.now.n system.now.m numbers.old words.old (equations_in system.now) numbers.new words.new }
{
    rows::clear(numbers, words, system.n, system.m);
    for i in 0..system.m {
        rows::store_row(
            numbers,
            words,
            system.n,
            system.m,
            i,
            system.variables(i),
            system.constants[i],
        );
    }
}
