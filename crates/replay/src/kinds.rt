// The kinds of cases.
use replay_cases::said::Verdict;
use replay_graphs::graphs::graph_case;
use replay_graphs::pushes::{Stack, stack_case};
use replay_peels::peels::{Peeler, peel_case};
use replay_solvers::checks::check_case;
use replay_solvers::denses::dense_case;
use replay_solvers::sums::sum_case;
use replay_solvers::systems::{Solver, system_case};
use std::fmt;

#[derive(Clone, Copy, PartialEq, Debug)]
pub enum Kind {
    Sum,
    Check,
    Sparse,
    Lazy,
    Dense,
    High,
    Low,
    Graph,
    Fast,
    Double,
}

impl Kind {
    // In the order in which they are told.
    pub const ALL: [Kind; 10] = [
        Kind::Sum,
        Kind::Check,
        Kind::Sparse,
        Kind::Lazy,
        Kind::Dense,
        Kind::High,
        Kind::Low,
        Kind::Graph,
        Kind::Fast,
        Kind::Double,
    ];

    pub fn replay(self, bytes: &[u8]) -> Verdict {
        match self {
            Kind::Sum => sum_case(bytes),
            Kind::Check => check_case(bytes),
            Kind::Sparse => system_case(Solver::Sparse, bytes),
            Kind::Lazy => system_case(Solver::Lazy, bytes),
            Kind::Dense => dense_case(bytes),
            Kind::High => peel_case(Peeler::High, bytes),
            Kind::Low => peel_case(Peeler::Low, bytes),
            Kind::Graph => graph_case(bytes),
            Kind::Fast => stack_case(Stack::Fast, bytes),
            Kind::Double => stack_case(Stack::Double, bytes),
        }
    }
}

// A byte that stands for no kind.
#[derive(Clone, Copy, PartialEq, Debug)]
pub struct UnknownKind(pub u8);

impl TryFrom<u8> for Kind {
    type Error = UnknownKind;

    fn try_from(byte: u8) -> Result<Kind, UnknownKind> {
        Kind::ALL
            .get(usize::from(byte))
            .copied()
            .ok_or(UnknownKind(byte))
    }
}

impl fmt::Display for Kind {
    fn fmt<W: fmt::Write>(&self, f: &mut fmt::Formatter<W>) -> fmt::Result {
        let name = match self {
            Kind::Sum => "sum",
            Kind::Check => "check",
            Kind::Sparse => "sparse",
            Kind::Lazy => "lazy",
            Kind::Dense => "dense",
            Kind::High => "high",
            Kind::Low => "low",
            Kind::Graph => "graph",
            Kind::Fast => "fast",
            Kind::Double => "double",
        };
        write!(f, "{name}")
    }
}
