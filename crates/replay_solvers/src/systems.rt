// Sparse and lazy elimination, replayed.
use answers::Refusal;
use replay_cases::judging::judged;
use replay_cases::lend::{Room, Way};
use replay_cases::lists::Lists;
use replay_cases::said::{Said, Verdict, came_of, said_of};
use replay_cases::ways::each_way;
use system::System;

// Which solver of systems is called.
#[derive(Clone, Copy, PartialEq, Debug)]
pub enum Solver {
    Sparse,
    Lazy,
}

impl Solver {
    // The room, as far as the replay goes; past that a case is refused for its size.
    fn room(self, system: &System) -> Room {
        let n = system.n;
        let m = system.m;
        let t = system.vars.len();
        if 256 < n || 256 < m || 8192 < t {
            return Room::NONE;
        }
        match self {
            Solver::Sparse => Room {
                solution: n,
                numbers: answers::sparse_numbers(n, m),
                others: m,
            },
            Solver::Lazy => Room {
                solution: n,
                numbers: answers::lazy_numbers(n, m, t),
                others: answers::lazy_words(m),
            },
        }
    }

    fn eliminate(
        self,
        system: &System,
        solution: &mut [u64],
        numbers: &mut [u32],
        words: &mut [u64],
    ) -> Result<(), Refusal> {
        let built = match self {
            Solver::Sparse => sparse::gaussian_elimination(system, solution, numbers, words),
            Solver::Lazy => {
                lazy_calls::lazy_gaussian_elimination(system, solution, numbers, words)
            }
        };
        built.answer
    }
}

fn system_ways(solver: Solver, system: &System, said: Said, found: &[u64]) -> bool {
    let room = solver.room(system);
    let mut cells = [0u64; 1024];
    each_way(
        &Way::ALL,
        room,
        said,
        &mut cells,
        |want, solution: &mut [u64], numbers: &mut [u32], words: &mut [u64]| {
            let answer = solver.eliminate(system, solution, numbers, words);
            judged(&answer, want, room, solution, found, numbers, words)
        },
    )
}

// None where a list is broken.
fn verdict(solver: Solver, bytes: &[u8]) -> Option<Verdict> {
    let mut lists = Lists::new(bytes);
    let mut sizes = [0u64; 2];
    let mut starts = [0u32; 256];
    let mut vars = [0u32; 8192];
    let mut constants = [0u64; 256];
    let mut list = [0u64; 8];
    let mut found = [0u64; 256];
    lists.load(&mut sizes)?;
    let i = lists.load(&mut starts)?;
    let j = lists.load(&mut vars)?;
    let k = lists.load(&mut constants)?;
    let l = lists.load(&mut list)?;
    let p = lists.load(&mut found)?;
    if !lists.at_end() {
        return None;
    }
    let system = System {
        n: sizes[0] as usize,
        m: sizes[1] as usize,
        starts: &starts[..i],
        vars: &vars[..j],
        constants: &constants[..k],
    };
    let said = said_of(&list[..l]);
    let agreed = system_ways(solver, &system, said, &found[..p]);
    Some(came_of(agreed, said))
}

pub fn system_case(solver: Solver, bytes: &[u8]) -> Verdict {
    verdict(solver, bytes).unwrap_or(Verdict::Different)
}
