// The peelers and lookup under plain names: a second result is written through. `peel_exports_c` hands them to C.
#![tactic(auto)]

ghost use Rattle.std.specs.Prelude.{◌≡◌};
ghost use Rattle.answers.specs.Numbers.{number_of, place_of};
ghost use Rattle.peel_rules.specs.Calls.{peel_high_call, peel_low_call, lookup_call};
ghost use Rattle.peel_gates.specs.Ends.{peeling_of};
ghost use Rattle.peel_exports.specs.Told.{Tells, TellsReport};

use answers::{StuckReport, Unpeeled, tell};
use lookups::reading::lookup;
use peelers::calls::{peel_by_sig_vals_high_mem, peel_by_sig_vals_low_mem};
use peeling::numbers::{Edge, Vertex};

// The report of a peeler: zeros where it is not stuck.
fn report_of(end: &Result<(), Unpeeled>) -> StuckReport
    ensures { result ≡ (peeling_of end.now).report }
{
    match *end {
        Err(Unpeeled::Stuck(report)) => report,
        _ => StuckReport::none(),
    }
}

// The number of a peeler's answer; its place is written through `place`, and its report too.
fn tell_peeling(
    end: &Result<(), Unpeeled>,
    peeled: &mut usize,
    total: &mut usize,
    unpeeled: &mut f64,
    place: &mut usize,
) -> u32
    ensures { TellsReport (peeling_of end.now).answer (peeling_of end.now).report result place.new peeled.new total.new unpeeled.new }
{
    let report = report_of(end);
    *peeled = report.peeled;
    *total = report.edges;
    *unpeeled = report.unpeeled;
    tell(end, place)
}

// `peelers::calls::peel_by_sig_vals_high_mem`; its report goes through `peeled`, `total` and `unpeeled`.
pub fn orohkaril_peel_high(
    n: usize,
    edges: &[Edge],
    solution: &mut [u64],
    numbers: &mut [u32],
    bytes: &mut [u8],
    peeled: &mut usize,
    total: &mut usize,
    unpeeled: &mut f64,
    place: &mut usize,
) -> u32
    ensures { Tells (peel_high_call n edges.now solution.old numbers.old bytes.old) result place.new peeled.new total.new unpeeled.new solution.new numbers.new bytes.new }
{
    let end = peel_by_sig_vals_high_mem(n, edges, solution, numbers, bytes);
    tell_peeling(&end, peeled, total, unpeeled, place)
}

// `peelers::calls::peel_by_sig_vals_low_mem`; its report goes through `peeled`, `total` and `unpeeled`.
pub fn orohkaril_peel_low(
    n: usize,
    edges: &[Edge],
    solution: &mut [u64],
    numbers: &mut [u32],
    bytes: &mut [u8],
    peeled: &mut usize,
    total: &mut usize,
    unpeeled: &mut f64,
    place: &mut usize,
) -> u32
    ensures { Tells (peel_low_call n edges.now solution.old numbers.old bytes.old) result place.new peeled.new total.new unpeeled.new solution.new numbers.new bytes.new }
{
    let end = peel_by_sig_vals_low_mem(n, edges, solution, numbers, bytes);
    tell_peeling(&end, peeled, total, unpeeled, place)
}

// `lookups::reading::lookup`; bib and place are written through.
pub fn orohkaril_lookup(
    table: &[u64],
    a: u32,
    b: u32,
    c: u32,
    bib: &mut u64,
    place: &mut usize,
) -> u32
    ensures value { result ≡ number_of (lookup_call table.now a b c).answer }
    ensures bib_after { bib.new ≡ (lookup_call table.now a b c).bib }
    ensures place_after { place.new ≡ place_of (lookup_call table.now a b c).answer }
{
    let found = lookup(table, Vertex(a), Vertex(b), Vertex(c));
    // a lookup that is refused tells 0
    *bib = found.unwrap_or(0);
    tell(&found, place)
}
