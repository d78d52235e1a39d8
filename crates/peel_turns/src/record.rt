// The record of peeled edges, which the filling reads again.
ghost use Rattle.std.specs.Prelude.{◌≡◌, ◌≤◌, ◌<◌};
ghost use Rattle.answers.specs.Sizes.{max_variables, max_equations};
ghost use Rattle.peel_steps.specs.Pictures.{kept_numbers, kept_bytes, number_at, side_no_at, Reads};
ghost use Rattle.peel_turns.specs.Steps.{Keeps};

use peel_gates::rooms::{HighMem, LowMem, Memory};
use peeling::graph::EdgeAndSide;
use peeling::incidence::{number_at, side_at};
use peeling::numbers::{EdgeNo, Vertex};
use stack_steps::Head;
use stack_steps::double::DoubleStack;

// What a peeler keeps of a peeled edge.
pub trait Record: Memory {
    // Records the edge that is peeled after `k` others, from vertex `v`.
    fn keep(n: usize, k: usize, v: Vertex, at: EdgeAndSide, numbers: &mut [u32], bytes: &mut [u8])
        requires { (n ≤ max_variables) × (k < max_variables) × Keeps Self.high n k numbers.old bytes.old }
        ensures numbers_after { numbers.new ≡ kept_numbers Self.high n k v.0 at.edge.0 numbers.old }
        ensures bytes_after { bytes.new ≡ kept_bytes Self.high n k at.side bytes.old };

    // The k-th peeled edge, as it was recorded.
    fn peeled_at(n: usize, k: usize, numbers: &[u32], bytes: &[u8]) -> EdgeAndSide
        requires { (n ≤ max_variables) × (k ≤ max_equations) × Reads Self.high n k numbers.now bytes.now }
        ensures edge { result.edge.0 ≡ number_at Self.high n k numbers.now }
        ensures side { result.side ≡ side_no_at Self.high n k numbers.now bytes.now };
}

// The edge's number and side, behind the stack.
impl Record for HighMem {
    fn keep(
        n: usize,
        k: usize,
        _v: Vertex,
        at: EdgeAndSide,
        numbers: &mut [u32],
        bytes: &mut [u8],
    ) {
        numbers[n + n + k] = at.edge.0;
        bytes[n + k] = at.side;
    }

    fn peeled_at(n: usize, k: usize, numbers: &[u32], bytes: &[u8]) -> EdgeAndSide {
        EdgeAndSide {
            edge: EdgeNo(numbers[n + n + k]),
            side: bytes[n + k],
        }
    }
}

// The vertex alone, whose record in the graph is read again.
impl Record for LowMem {
    fn keep(
        n: usize,
        k: usize,
        v: Vertex,
        _at: EdgeAndSide,
        numbers: &mut [u32],
        _bytes: &mut [u8],
    ) {
        let mut head = Head {
            lower: 0,
            upper: n - k,
        };
        // There is room, so the push is not refused.
        let _ = DoubleStack::push_upper(&mut head, &mut numbers[n..n + n], v);
    }

    fn peeled_at(n: usize, k: usize, numbers: &[u32], bytes: &[u8]) -> EdgeAndSide {
        let v = Vertex(numbers[n + n - (k + 1)]);
        EdgeAndSide {
            edge: number_at(numbers, v),
            side: side_at(bytes, v),
        }
    }
}
