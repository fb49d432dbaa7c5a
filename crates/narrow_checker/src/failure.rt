// What keeps a checker from a good end (document 01, "What is offered" and "When a call is turned down").
ghost use Rattle.std.specs.Prelude.{◌≡◌};
ghost use Rattle.narrow_checker.specs.declared.failure.Failure.TheVariants.{Refused};

use refusals::Refusal;

// The call is turned down; or a round is rejected, and which: the first whose sum fails, or the last where the final check fails.
#[derive(Clone, Copy, Debug, PartialEq, Eq, Hash)]
pub enum Failure {
    Refused(Refusal),
    Rejected(u32),
}

impl From<Refusal> for Failure {
    ghost from_gives = { λ refusal failure. failure ≡ Refused refusal };

    // A refusal is a failure, so `?` takes it for one.
    fn from(refusal: Refusal) -> Failure {
        Failure::Refused(refusal)
    }
}
