// The peelers, replayed.
use answers::{StuckReport, Unpeeled};
use peel_gates::rooms::{HighMem, LowMem, Memory};
use peelers::calls::{peel_by_sig_vals_high_mem, peel_by_sig_vals_low_mem};
use peeling::numbers::{Edge, Vertex};
use replay_cases::judging::judged;
use replay_cases::lend::{Room, Way};
use replay_cases::lists::Lists;
use replay_cases::said::{Said, Verdict, came_of, number_at, said_of, word_at};
use replay_cases::ways::each_way;

// Which peeler is called.
#[derive(Clone, Copy, PartialEq, Debug)]
pub enum Peeler {
    High,
    Low,
}

// What the Rust logs when it is stuck: edges in all, and the percentage unpeeled in hundredths.
#[derive(Clone, Copy)]
pub struct Logged {
    pub edges: u64,
    pub hundredths: u64,
}

// What a case says beside the edges.
#[derive(Clone, Copy)]
struct Told<'a> {
    said: Said,
    logged: Logged,
    found: &'a [u64],
}

const EDGES: usize = 256;

const NO_EDGE: Edge = Edge {
    a: Vertex(0),
    b: Vertex(0),
    c: Vertex(0),
    value: 0,
};

fn table_of(vertices: &[u32], values: &[u64]) -> [Edge; EDGES] {
    let mut table = [NO_EDGE; EDGES];
    for (i, edge) in table.iter_mut().enumerate() {
        *edge = Edge {
            a: Vertex(number_at(vertices, 3 * i)),
            b: Vertex(number_at(vertices, 3 * i + 1)),
            c: Vertex(number_at(vertices, 3 * i + 2)),
            value: word_at(values, i),
        };
    }
    table
}

// The log has two decimals.
fn near(percent: f64, hundredths: u64) -> bool {
    if 10000 < hundredths {
        return false;
    }
    let off = percent * 100.0 - (hundredths as f64);
    -0.51 <= off && off < 0.51
}

// Whether a stuck peeler reports what the Rust logged; no other answer has a report.
fn reported(answer: &Result<(), Unpeeled>, logged: Logged) -> bool {
    match answer {
        Err(Unpeeled::Stuck(report)) => {
            report.edges as u64 == logged.edges && near(report.unpeeled, logged.hundredths)
        }
        _ => true,
    }
}

// The room, as far as the replay goes.
fn peel_room<M: Memory>(n: usize, m: usize) -> Room {
    if 512 < n || EDGES < m {
        return Room::NONE;
    }
    Room {
        solution: n,
        numbers: M::numbers_room(n, m),
        others: M::bytes_room(n, m),
    }
}

fn peel(
    peeler: Peeler,
    n: usize,
    edges: &[Edge],
    solution: &mut [u64],
    numbers: &mut [u32],
    bytes: &mut [u8],
) -> Result<(), Unpeeled> {
    match peeler {
        Peeler::High => peel_by_sig_vals_high_mem(n, edges, solution, numbers, bytes),
        Peeler::Low => peel_by_sig_vals_low_mem(n, edges, solution, numbers, bytes),
    }
}

fn peel_ways(peeler: Peeler, n: usize, edges: &[Edge], told: &Told) -> bool {
    let room = match peeler {
        Peeler::High => peel_room::<HighMem>(n, edges.len()),
        Peeler::Low => peel_room::<LowMem>(n, edges.len()),
    };
    let logged = told.logged;
    let found = told.found;
    let mut cells = [0u8; 1024];
    each_way(
        &Way::ALL,
        room,
        told.said,
        &mut cells,
        |want, solution: &mut [u64], numbers: &mut [u32], bytes: &mut [u8]| {
            let answer = peel(peeler, n, edges, solution, numbers, bytes);
            reported(&answer, logged)
                && judged(&answer, want, room, solution, found, numbers, bytes)
        },
    )
}

// None where a list is broken.
fn verdict(peeler: Peeler, bytes: &[u8]) -> Option<Verdict> {
    let mut lists = Lists::new(bytes);
    let mut size = [0u64; 1];
    let mut vertices = [0u32; 3 * EDGES];
    let mut values = [0u64; EDGES];
    let mut list = [0u64; 8];
    let mut found = [0u64; 512];
    lists.load(&mut size)?;
    let i = lists.load(&mut vertices)?;
    let m = lists.load(&mut values)?;
    let k = lists.load(&mut list)?;
    let l = lists.load(&mut found)?;
    if !lists.at_end() {
        return None;
    }
    let table = table_of(&vertices[..i], &values[..m]);
    let list = &list[..k];
    let told = Told {
        said: said_of(list),
        logged: Logged {
            edges: word_at(list, 3),
            hundredths: word_at(list, 4),
        },
        found: &found[..l],
    };
    let agreed = peel_ways(peeler, size[0] as usize, &table[..m], &told);
    Some(came_of(agreed, told.said))
}

pub fn peel_case(peeler: Peeler, bytes: &[u8]) -> Verdict {
    verdict(peeler, bytes).unwrap_or(Verdict::Different)
}
