// What a peeler answers.
ghost use Rattle.std.specs.Prelude.{◌≡◌, ◌≤◌};
ghost use Rattle.answers.specs.Sizes.{max_equations};
ghost use Rattle.answers.specs.Answers.{CrowdedVertex};
ghost use Rattle.peel_rules.specs.Report.{no_report, report_of};
ghost use Rattle.peel_gates.specs.Ends.{end_of, peeling_of};

use answers::{Refusal, StuckReport, Unpeeled};

// A vertex lies on a crowd of edges.
pub fn crowded(low: usize) -> Result<(), Unpeeled>
    ensures { peeling_of result ≡ record { answer = CrowdedVertex low; report = no_report } }
{
    Err(Unpeeled::Refused(Refusal::CrowdedVertex(low)))
}

// Stuck where an edge is left, solved where none is.
pub fn ended(m: usize, peeled: usize) -> Result<(), Unpeeled>
    requires { (peeled ≤ m) × (m ≤ max_equations) }
    ensures { peeling_of result ≡ end_of m peeled }
{
    if peeled < m {
        return Err(Unpeeled::Stuck(report_of(peeled, m)));
    }
    Ok(())
}

// The report of a peeler that peeled some of the edges.
#[tactic(auto, using(peel_rules::proofs::Counts::hundred))]
fn report_of(peeled: usize, edges: usize) -> StuckReport
    requires { (peeled ≤ edges) × (edges ≤ max_equations) }
    ensures { result ≡ report_of peeled edges }
{
    let unpeeled = edges - peeled;
    let share = 100.0 * (unpeeled as f64);
    StuckReport {
        peeled,
        edges,
        unpeeled: share / (edges as f64),
    }
}
