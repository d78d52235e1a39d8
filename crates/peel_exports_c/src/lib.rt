// The calls of `peel_exports` for programs in C, by the names of include/orohkaril.h: a slice is a pointer and a length.
// Each calls the function of its name there and promises the same.
// A lent edge is a C struct of 24 bytes: 32-bit vertices at 0, 4 and 8, a 64-bit value at 16. The language promises it of `#[repr(C)]`.
#![tactic(auto)]

ghost use Rattle.std.specs.Prelude.{◌≡◌};
ghost use Rattle.answers.specs.Numbers.{number_of, place_of};
ghost use Rattle.peel_rules.specs.Calls.{peel_high_call, peel_low_call, lookup_call};
ghost use Rattle.peel_exports.specs.Told.{Tells};

use peeling::numbers::Edge;

#[unsafe(no_mangle)]
pub extern "C" fn orohkaril_peel_high(
    n: usize,
    edges: &[Edge],
    solution: &mut [u64],
    numbers: &mut [u32],
    bytes: &mut [u8],
    peeled: &mut usize,
    total: &mut usize,
    unpeeled: &mut f64,
    place: &mut usize,
) -> u32
    ensures { Tells (peel_high_call n edges.now solution.old numbers.old bytes.old) result place.new peeled.new total.new unpeeled.new solution.new numbers.new bytes.new }
{
    peel_exports::orohkaril_peel_high(
        n, edges, solution, numbers, bytes, peeled, total, unpeeled, place,
    )
}

#[unsafe(no_mangle)]
pub extern "C" fn orohkaril_peel_low(
    n: usize,
    edges: &[Edge],
    solution: &mut [u64],
    numbers: &mut [u32],
    bytes: &mut [u8],
    peeled: &mut usize,
    total: &mut usize,
    unpeeled: &mut f64,
    place: &mut usize,
) -> u32
    ensures { Tells (peel_low_call n edges.now solution.old numbers.old bytes.old) result place.new peeled.new total.new unpeeled.new solution.new numbers.new bytes.new }
{
    peel_exports::orohkaril_peel_low(
        n, edges, solution, numbers, bytes, peeled, total, unpeeled, place,
    )
}

#[unsafe(no_mangle)]
pub extern "C" fn orohkaril_lookup(
    table: &[u64],
    a: u32,
    b: u32,
    c: u32,
    bib: &mut u64,
    place: &mut usize,
) -> u32
    ensures value { result ≡ number_of (lookup_call table.now a b c).answer }
    ensures bib_after { bib.new ≡ (lookup_call table.now a b c).bib }
    ensures place_after { place.new ≡ place_of (lookup_call table.now a b c).answer }
{
    peel_exports::orohkaril_lookup(table, a, b, c, bib, place)
}
