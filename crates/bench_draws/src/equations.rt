// Systems that a seed gives, each in sparse form and as dense rows.
ghost use Rattle.std.specs.Prelude.{◌≡◌, ◌+◌, ◌*◌, ◌≤◌, ◌<◌, length};
ghost use Rattle.bench_draws.specs.Draws.{after, values_of, spoilt, spoilt_seed};

use crate::random::Random;

// The fewest and the most variables that an equation lists, and the words that its row takes.
#[derive(Clone, Copy)]
pub struct Shape {
    pub shortest: usize,
    pub longest: usize,
    pub row_words: usize,
}

// Values of `bits` bits at most.
#[tactic(auto, using(crate::proofs::Drawing::one_more), unfolding(crate::specs::Draws::after, crate::specs::Draws::values_of))]
pub fn draw_values(random: &mut Random, bits: u32, values: &mut [u64])
    requires { (0 < bits) × (bits ≤ 64) }
    ensures drawn { values.new ≡ values_of bits (length values.old) random.old }
    ensures seed { random.new ≡ after (length values.old) random.old }
{
    for value in values {
        *value = random.next() >> (64 - bits);
    }
}

// How many of the next `span` variables are passed over before one of `left` is taken, so that every choice is as likely as another.
fn draw_gap(random: &mut Random, span: usize, left: usize) -> usize
    requires { (0 < left) × (left ≤ span) }
    ensures { result + left ≤ span }
{
    let mut gap = 0;
    // No `for`: the draws say how far it goes.
    while left <= random.below(span - gap) {
        gap += 1;
    }
    gap
}

// Fills `vars` with different variables, rising, and sets their bits in the row; hands back the XOR of their values.
fn draw_equation(random: &mut Random, values: &[u64], vars: &mut [u32], row: &mut [u64]) -> u64
    requires fewer { length vars.old ≤ length values.now }
    requires fits { (length values.now ≤ 16384) × (length values.now ≤ 64 * length row.old) }
{
    let count = vars.len();
    let mut sum = 0;
    let mut v = 0;
    for (drawn, var) in vars.iter_mut().enumerate() {
        v += draw_gap(random, values.len() - v, count - drawn);
        *var = v as u32;
        row[v / 64] ^= 1 << (v % 64);
        sum ^= values[v];
        v += 1;
    }
    sum
}

// How many variables an equation lists, as far as there is room.
fn draw_count(random: &mut Random, shape: Shape, room: usize) -> usize
    requires { (shape.shortest ≤ shape.longest) × (shape.longest ≤ 16384) }
    ensures { (result ≤ shape.longest) × (result ≤ room) }
{
    let drawn = shape.shortest + random.below(shape.longest - shape.shortest + 1);
    drawn.min(room)
}

// Draws as many equations as there are constants, which the values meet, each as a row too; hands back how many variables they list.
pub fn draw_equations(
    random: &mut Random,
    shape: Shape,
    values: &[u64],
    starts: &mut [u32],
    vars: &mut [u32],
    constants: &mut [u64],
    rows: &mut [u64],
) -> usize
    requires lists { (length constants.old < length starts.old) × (length vars.old ≤ 65536) }
    requires row { (length constants.old * shape.row_words ≤ length rows.old) × (length values.now ≤ 64 * shape.row_words) }
    requires variables { (shape.shortest ≤ shape.longest) × (shape.longest ≤ length values.now) × (length values.now ≤ 16384) }
    ensures { result ≤ length vars.old }
{
    let mut t = 0;
    for i in 0..constants.len() {
        starts[i] = t as u32;
        let count = draw_count(random, shape, vars.len() - t);
        let row = &mut rows[i * shape.row_words..(i + 1) * shape.row_words];
        constants[i] = draw_equation(random, values, &mut vars[t..t + count], row);
        t += count;
    }
    starts[constants.len()] = t as u32;
    t
}

// Another bit in one of the constants, if there are any.
#[tactic(auto, unfolding(crate::specs::Draws::after))]
pub fn spoil(random: &mut Random, constants: &mut [u64])
    ensures spoilt { constants.new ≡ spoilt (length constants.old) random.old constants.old }
    ensures seed { random.new ≡ spoilt_seed (length constants.old) random.old }
{
    if constants.is_empty() {
        return;
    }
    let i = random.below(constants.len());
    let bit = random.below(64);
    constants[i] ^= 1 << bit;
}
