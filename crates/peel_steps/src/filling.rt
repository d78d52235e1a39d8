// The cell of a peeled edge.
ghost use Rattle.std.specs.Prelude.{◌≡◌, length};
ghost use Rattle.peel_rules.specs.Edges.{Valid};
ghost use Rattle.peel_rules.specs.Peel.{fill_one};
ghost use Rattle.peel_rules.specs.Machine.{side_from};

use crate::sides::{first_of, second_of, vertex_at};
use peeling::numbers::Edge;

// Gives the vertex at the side the value that the edge's equation leaves for it.
#[tactic(auto, unfolding(peel_rules::specs::Peel::fill_one))]
pub fn fill_one(solution: &mut [u64], e: Edge, side: u8)
    requires { Valid (length solution.old) e }
    ensures { solution.new ≡ fill_one (record { edge = e; side = side_from side }) solution.old }
{
    let v = vertex_at(e, side).0 as usize;
    let x = first_of(e, side).0 as usize;
    let y = second_of(e, side).0 as usize;
    solution[v] = e.value ^ (solution[x] ^ solution[y]);
}
