// Seeded systems and graphs.
ghost use Rattle.std.specs.Prelude.{◌*◌, ◌≤◌, ◌<◌};

use bench_checks::tally::Tally;
use bench_draws::equations::{Shape, draw_equations, draw_values, spoil};
use bench_draws::graphs::{draw_edge, draw_edges};
use bench_draws::random::Random;
use dense_rows::DenseSystem;
use system::System;

// Every number of variables from 0 to 130, sixteen times.
const SYSTEMS: usize = 2096;
// Every number of vertices from 3 to 300, five times.
const GRAPHS: usize = 1490;

// Three variables an equation, or up to seven, or up to as many as there is room for.
fn longest(random: &mut Random, m: usize) -> usize
    requires { m ≤ 130 }
{
    match random.below(4) {
        0 => 7,
        1 => 1024 / (m + 1),
        _ => 3,
    }
}

// Equations of three have no fewer; others may be empty.
fn shortest(longest: usize) -> usize
    ensures { result ≤ longest }
{
    if longest == 3 { 3 } else { 0 }
}

fn draw_shape(random: &mut Random, n: usize, m: usize) -> Shape
    requires { (n ≤ 130) × (m ≤ 130) }
    ensures variables { (result.shortest ≤ result.longest) × (result.longest ≤ n) }
    ensures words { (result.row_words ≤ 3) × (n ≤ 64 * result.row_words) }
{
    let longest = longest(random, m).min(n);
    Shape {
        shortest: shortest(longest),
        longest,
        row_words: n.div_ceil(64),
    }
}

// The values that planted equations have in mind.
fn draw_plant(random: &mut Random) -> [u64; 130] {
    let mut values = [0u64; 130];
    let bits = (1 + random.below(64)) as u32;
    draw_values(random, bits, &mut values);
    values
}

// A system of m equations in n variables, by all solvers; one of the equations is spoilt if they are not to be met.
fn system(tally: &mut Tally, random: &mut Random, n: usize, m: usize)
    requires { (n ≤ 130) × (m ≤ 130) }
{
    let mut starts = [0u32; 131];
    let mut vars = [0u32; 1024];
    let mut constants = [0u64; 130];
    let mut rows = [0u64; 390];
    let values = draw_plant(random);
    let shape = draw_shape(random, n, m);
    let constants = &mut constants[..m];
    let t = draw_equations(
        random,
        shape,
        &values[..n],
        &mut starts,
        &mut vars,
        constants,
        &mut rows,
    );
    let planted = random.below(2) == 0;
    if !planted {
        spoil(random, constants);
    }
    let system = System {
        n,
        m,
        starts: &starts[..m + 1],
        vars: &vars[..t],
        constants,
    };
    let dense = DenseSystem {
        n,
        m,
        w: shape.row_words,
        rows: &rows,
        constants,
    };
    bench_checks::systems::compare(tally, planted, &system, &dense);
}

pub fn systems(tally: &mut Tally, random: &mut Random) {
    for k in 0..SYSTEMS {
        let m = random.below(131);
        system(tally, random, k % 131, m);
    }
}

// All vertices may be the first of an edge, or a few alone.
fn draw_hubs(random: &mut Random, n: usize) -> usize
    requires { 3 ≤ n }
    ensures { (0 < result) × (result ≤ n) }
{
    if random.below(4) == 0 {
        return 1 + random.below(3);
    }
    n
}

// At most five edges to four vertices.
fn draw_size(random: &mut Random, n: usize) -> usize
    requires { (3 ≤ n) × (n ≤ 300) }
    ensures { result ≤ 256 }
{
    random.below(n + n / 4).min(256)
}

fn graph(tally: &mut Tally, random: &mut Random, n: usize)
    requires { (3 ≤ n) × (n ≤ 300) }
{
    let hubs = draw_hubs(random, n);
    let m = draw_size(random, n);
    let mut table = [draw_edge(random, n, hubs); 256];
    let edges = &mut table[..m];
    draw_edges(random, n, hubs, edges);
    bench_peels::graphs::compare(tally, n, edges);
}

pub fn graphs(tally: &mut Tally, random: &mut Random) {
    for k in 0..GRAPHS {
        graph(tally, random, 3 + k % 298);
    }
}
