// The kinds of a link file.
ghost use Rattle.std.specs.Prelude.{◌≡◌};
ghost use Rattle.link_form.specs.Kinds.{number_of_kind, NamesKind};

use answers::Refusal;

// Which call a file asks for.
#[derive(Clone, Copy, PartialEq, Debug)]
pub enum Kind {
    Sparse,
    Lazy,
    Peel,
}

impl Kind {
    ghost use Rattle.link_form.specs.Kinds.{StandsFor};

    // The kind of a number; one that is no kind is read and solved as sparse elimination is.
    pub fn standing_for(number: u64) -> Kind
        ensures { StandsFor number result }
    {
        match Kind::try_from(number) {
            Ok(kind) => kind,
            Err(_) => Kind::Sparse,
        }
    }
}

impl TryFrom<u64> for Kind {
    type Error = Refusal;

    ghost try_from_gives = { NamesKind };

    fn try_from(number: u64) -> Result<Kind, Refusal> {
        match number {
            1 => Ok(Kind::Sparse),
            2 => Ok(Kind::Lazy),
            3 => Ok(Kind::Peel),
            _ => Err(Refusal::BadFile),
        }
    }
}

impl From<Kind> for u64 {
    ghost from_gives = { λ kind number. number ≡ number_of_kind kind };

    fn from(kind: Kind) -> u64 {
        match kind {
            Kind::Sparse => 1,
            Kind::Lazy => 2,
            Kind::Peel => 3,
        }
    }
}
