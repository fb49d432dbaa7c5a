// Why a call is turned down (document 01, "When a call is turned down").
ghost use Rattle.std.specs.Prelude.{◌≡◌};
ghost use Rattle.refusals.specs.Said.{number_of};

// The reasons, in the order of their numbers.
#[derive(Clone, Copy, Debug, PartialEq, Eq, Hash)]
pub enum Refusal {
    TooManyVars,
    BadDegree,
    WrongLength,
    TooShort,
    NoElement,
    InverseOfZero,
    StateForbids,
    NoSuchRound,
    FileTooLong,
    BadLine,
    FileEnds,
    NotAllowed,
    FileGoesOn,
}

impl From<Refusal> for u32 {
    ghost from_gives = { λ refusal number. number ≡ number_of refusal };

    // The document's number.
    fn from(refusal: Refusal) -> u32 {
        match refusal {
            Refusal::TooManyVars => 1,
            Refusal::BadDegree => 2,
            Refusal::WrongLength => 3,
            Refusal::TooShort => 4,
            Refusal::NoElement => 5,
            Refusal::InverseOfZero => 6,
            Refusal::StateForbids => 7,
            Refusal::NoSuchRound => 8,
            Refusal::FileTooLong => 9,
            Refusal::BadLine => 10,
            Refusal::FileEnds => 11,
            Refusal::NotAllowed => 12,
            Refusal::FileGoesOn => 13,
        }
    }
}
