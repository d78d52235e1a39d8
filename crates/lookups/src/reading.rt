// The bib of a transponder.
ghost use Rattle.std.specs.Prelude.{◌≡◌};
ghost use Rattle.peel_rules.specs.Calls.{lookup_call};
ghost use Rattle.lookups.specs.Lookups.{found_of, found_by, FoundNumber};

use answers::{MAX_VARIABLES, Refusal};
use peel_gates::rules::keeps_rule;
use peeling::numbers::{Edge, Vertex};

// The bib that three cells of the table hold, which is their XOR; refused by 1 and 3.
#[tactic(auto, unfolding(peel_rules::specs::Peel::edge_xor))]
pub fn lookup(table: &[u64], a: Vertex, b: Vertex, c: Vertex) -> Result<u64, Refusal>
    ensures value { found_by result ≡ found_of (lookup_call table.now a.0 b.0 c.0) }
    ensures found_number { FoundNumber table.now a.0 b.0 c.0 (found_by result) }
{
    if MAX_VARIABLES < table.len() {
        return Err(Refusal::TooLarge);
    }
    let e = Edge { a, b, c, value: 0 };
    if !keeps_rule(table.len(), e) {
        return Err(Refusal::BadEntry(0));
    }
    let x = table[a.0 as usize];
    let y = table[b.0 as usize];
    let z = table[c.0 as usize];
    Ok(x ^ (y ^ z))
}
