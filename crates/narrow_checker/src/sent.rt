// What a checker is sent (document 01, "Terms"): a claim, and for each round a challenge and a message.
ghost use Rattle.std.specs.Prelude.{◌≡◌, ◌∷◌, ◌++◌};
ghost use Rattle.refusals.specs.First.{either, outside};
ghost use Rattle.sumcheck.specs.Lent.{messages_length, not_long};
ghost use Rattle.narrow_field.specs.Narrow.{p};

use narrow_field::field;
use narrow_lent::judge;
use narrow_lent::lengths::{messages_length, wide};

// A claim, and the caller's own lists of challenges and messages, of any length.
#[derive(Clone, Copy)]
pub(crate) struct Sent<'a> {
    pub claim: u32,
    pub challenges: &'a [u32],
    pub messages: &'a [u32],
}

impl Sent<'_> {
    // Whether challenges or messages are not of the exact length.
    pub(crate) fn is_not_long(self, vars: u32, degree: u32) -> bool
        ensures { result
            ≡ either (not_long vars self.entry.challenges.now) (not_long (messages_length vars degree) self.entry.messages.now) }
    {
        self.challenges.len() != wide(vars) || self.messages.len() != messages_length(vars, degree)
    }

    // Whether some number is no element.
    #[tactic(auto, using(crate::proofs::Lists::lists))]
    pub(crate) fn is_outside(self) -> bool
        ensures { result ≡ outside p (self.entry.claim ∷ self.entry.challenges.now ++ self.entry.messages.now) }
    {
        field::is_outside(self.claim)
            || judge::is_outside(self.challenges)
            || judge::is_outside(self.messages)
    }
}
