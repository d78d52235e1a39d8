// Why a call is refused, and what calls hand back.
ghost use Rattle.std.specs.Prelude.{◌≡◌, Result, Err};
ghost use Rattle.answers.specs.Answers.{Answer, refusal_of, unpeeled_of, answer_by};
ghost use Rattle.answers.specs.Numbers.{number_of, place_of};
ghost use Rattle.answers.specs.Report.{no_report};

// Why a call is refused; a number in brackets is the place.
#[derive(Clone, Copy, PartialEq, Debug)]
pub enum Refusal {
    TooLarge,
    BadShape,
    BadEntry(usize),
    WrongSolution,
    ShortArea,
    Unsolvable,
    CrowdedVertex(usize),
    BadFile,
    OutsideDomain,
}

// What a stuck peeler tells of edges that it could not peel.
#[derive(Clone, Copy, PartialEq, Debug)]
pub struct StuckReport {
    // Edges peeled: those outside the core.
    pub peeled: usize,
    // Edges in all.
    pub edges: usize,
    // The percentage of edges that are in the core.
    pub unpeeled: f64,
}

impl StuckReport {
    // The report of a peeler that is not stuck.
    #[tactic(auto, using(crate::proofs::Counts::nothing))]
    pub fn none() -> StuckReport
        ensures { result ≡ no_report }
    {
        StuckReport {
            peeled: 0,
            edges: 0,
            unpeeled: 0.0,
        }
    }
}

// Why a peeler hands back no solution.
#[derive(Clone, Copy, PartialEq, Debug)]
pub enum Unpeeled {
    Refused(Refusal),
    // A core is left, and only here is there a report.
    Stuck(StuckReport),
}

impl From<Refusal> for Unpeeled {
    ghost use Rattle.answers.specs.declared.refusal.Unpeeled.TheVariants.{Refused};

    ghost from_gives = { λ refusal unpeeled. unpeeled ≡ Refused refusal };

    fn from(refusal: Refusal) -> Unpeeled {
        Unpeeled::Refused(refusal)
    }
}

// A reason that has a number and a place in the rules.
pub trait Numbered: Copy {
    ghost answer: { Self → Answer };

    fn number(self) -> u32
        ensures { result ≡ number_of (answer self) };

    fn place(self) -> usize
        ensures { result ≡ place_of (answer self) };
}

impl Numbered for Refusal {
    ghost answer = { refusal_of };

    fn number(self) -> u32 {
        match self {
            Refusal::TooLarge => 1,
            Refusal::BadShape => 2,
            Refusal::BadEntry(_) => 3,
            Refusal::WrongSolution => 4,
            Refusal::ShortArea => 5,
            Refusal::Unsolvable => 6,
            Refusal::CrowdedVertex(_) => 7,
            Refusal::BadFile => 9,
            Refusal::OutsideDomain => 10,
        }
    }

    fn place(self) -> usize {
        match self {
            Refusal::BadEntry(place) => place,
            Refusal::CrowdedVertex(vertex) => vertex,
            _ => 0,
        }
    }
}

impl Numbered for Unpeeled {
    ghost answer = { unpeeled_of };

    fn number(self) -> u32 {
        match self {
            Unpeeled::Refused(refusal) => refusal.number(),
            Unpeeled::Stuck(_) => 8,
        }
    }

    fn place(self) -> usize {
        match self {
            Unpeeled::Refused(refusal) => refusal.place(),
            Unpeeled::Stuck(report) => report.peeled,
        }
    }
}

// The number that a call's result has in the rules: 0 where there is no reason against it.
pub fn number<T, E: Numbered>(answer: &Result<T, E>) -> u32
    ensures { result ≡ number_of (answer_by E.answer answer.now) }
{
    match answer {
        Ok(_) => 0,
        Err(reason) => reason.number(),
    }
}

// The place that goes with the number.
pub fn place<T, E: Numbered>(answer: &Result<T, E>) -> usize
    ensures { result ≡ place_of (answer_by E.answer answer.now) }
{
    match answer {
        Ok(_) => 0,
        Err(reason) => reason.place(),
    }
}

// Hands back the number, and writes the place that goes with it through `told`: what a call tells a program in another language.
pub fn tell<T, E: Numbered>(answer: &Result<T, E>, told: &mut usize) -> u32
    ensures value { result ≡ number_of (answer_by E.answer answer.now) }
    ensures place_after { told.new ≡ place_of (answer_by E.answer answer.now) }
{
    *told = place(answer);
    number(answer)
}

// What may stand for a call's answer: a result, or a reason alone.
pub trait IntoAnswer<E>: Copy {
    ghost as_answer: { Self → Result (Unit {0}) E };

    fn into_answer(self) -> Result<(), E>
        ensures { result ≡ as_answer self };
}

impl<E: Copy> IntoAnswer<E> for Result<(), E> {
    ghost as_answer = { λ answer. answer };

    fn into_answer(self) -> Result<(), E> {
        self
    }
}

impl IntoAnswer<Refusal> for Refusal {
    ghost as_answer = { λ refusal. Err refusal };

    fn into_answer(self) -> Result<(), Refusal> {
        Err(self)
    }
}

impl IntoAnswer<Unpeeled> for Unpeeled {
    ghost as_answer = { λ reason. Err reason };

    fn into_answer(self) -> Result<(), Unpeeled> {
        Err(self)
    }
}

// What a solver's call answers, and how many variables cancelled in the sums that it made.
#[derive(Clone, Copy, PartialEq, Debug)]
pub struct Built<E = Refusal> {
    pub answer: Result<(), E>,
    pub cancelled: u64,
}

impl<E: Copy> Built<E> {
    // A call that is answered before it makes a sum, whatever the answer.
    pub fn refused<A: IntoAnswer<E>>(answer: A) -> Built<E>
        ensures answer_value { result.answer ≡ A.as_answer answer }
        ensures cancelled_value { result.cancelled ≡ 0 }
    {
        Built {
            answer: answer.into_answer(),
            cancelled: 0,
        }
    }
}
