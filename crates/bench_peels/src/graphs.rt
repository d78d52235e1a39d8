// The two peelers on one table.
ghost use Rattle.std.specs.Prelude.{◌≤◌, length};

use answers::{Refusal, StuckReport, Unpeeled, number};
use bench_checks::tally::{Caller, Tally};
use bench_cores::cores::{crowded, outside_core};
use lent_cells::cells::{left, mark, marked};
use lookups::reading::lookup;
use peelers::calls::{peel_by_sig_vals_high_mem, peel_by_sig_vals_low_mem};
use peeling::numbers::Edge;

// The largest table whose crowd and core are counted too.
const COUNTED: usize = 80;

// How many cells of each work area a peeler asks for.
#[derive(Clone, Copy)]
struct Room {
    numbers: usize,
    bytes: usize,
}

// What a peeler came to on memory of its own.
#[derive(Clone, Copy)]
pub struct Outcome {
    pub end: Result<(), Unpeeled>,
    pub x: [u64; 300],
}

// Every bib is found in the table's cells.
fn look_up(tally: &mut Tally, edges: &[Edge], cells: &[u64]) {
    for e in edges {
        let found = lookup(cells, e.a, e.b, e.c);
        tally.count(Caller::Lookup, &found);
        tally.hold(found == Ok(e.value));
    }
}

// Counts a peeler's answer, and holds what it left to it; bibs are looked up only where the table is filled.
fn left_by(
    tally: &mut Tally,
    caller: Caller,
    edges: &[Edge],
    room: Room,
    end: Result<(), Unpeeled>,
    solution: &[u64],
    numbers: &[u32],
    bytes: &[u8],
) {
    tally.count(caller, &end);
    tally.hold(left(numbers, room.numbers));
    tally.hold(left(bytes, room.bytes));
    match end {
        Ok(()) => look_up(tally, edges, solution),
        Err(_) => tally.hold(left(solution, 0)),
    }
}

// A peeler on marked memory that is longer than its room.
fn peeled<F>(
    tally: &mut Tally,
    caller: Caller,
    n: usize,
    edges: &[Edge],
    room: Room,
    peel: F,
) -> Outcome
where
    F: FnOnce(&mut [u64], &mut [u32], &mut [u8]) -> Result<(), Unpeeled>,
    requires callable { F.IsAlwaysCallable peel }
    requires few_vertices { n ≤ 300 }
{
    let mut x = [0u64; 300];
    let mut numbers = marked::<u32, 900>();
    let mut bytes = marked::<u8, 600>();
    let solution = &mut x[..n];
    mark(solution);
    let end = peel(solution, &mut numbers, &mut bytes);
    left_by(tally, caller, edges, room, end, solution, &numbers, &bytes);
    Outcome { end, x }
}

// What the rules say: a crowd, then a core, counted edge by edge.
fn expected(n: usize, edges: &[Edge]) -> Result<(), Unpeeled>
    requires { (length edges.now ≤ 256) × (n ≤ 16384) }
{
    if let Some(v) = crowded(edges, n) {
        return Err(Unpeeled::Refused(Refusal::CrowdedVertex(v)));
    }
    let m = edges.len();
    let outside = outside_core(edges);
    if outside < m {
        return Err(Unpeeled::Stuck(StuckReport {
            peeled: outside,
            edges: m,
            unpeeled: 100.0 * ((m - outside) as f64) / (m as f64),
        }));
    }
    Ok(())
}

// One table by both peelers: one answer with its report, one solution, every bib found; of a small table, the answer that counting gives.
pub fn compare(tally: &mut Tally, n: usize, edges: &[Edge])
    requires { (length edges.now ≤ 256) × (n ≤ 300) }
{
    let m = edges.len();
    let high = Room {
        numbers: answers::peel_high_numbers(n, m),
        bytes: answers::peel_high_bytes(n, m),
    };
    let low = Room {
        numbers: answers::peel_low_numbers(n),
        bytes: n,
    };
    let h = peeled(tally, Caller::High, n, edges, high, |x, numbers, bytes| {
        peel_by_sig_vals_high_mem(n, edges, x, numbers, bytes)
    });
    let l = peeled(tally, Caller::Low, n, edges, low, |x, numbers, bytes| {
        peel_by_sig_vals_low_mem(n, edges, x, numbers, bytes)
    });
    tally.hold(h.end == l.end);
    tally.hold(h.x == l.x);
    if m <= COUNTED {
        let must = expected(n, edges);
        tally.hold(number(&must) == number(&h.end));
        tally.hold(must == h.end);
    }
}
