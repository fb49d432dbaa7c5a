// Closing a checker in steps (document 01, "What is offered"): the running claim against a value that the caller gives for f. It doubts its state: 1, 2, 5
// on the running claim, 7, then 5 on the value.
ghost use Rattle.std.specs.Prelude.{◌≡◌, not};
ghost use Rattle.refusals.specs.First.{first, either};
ghost use Rattle.refusals.specs.Said.{number_said};
ghost use Rattle.sumcheck.specs.Steps.{forged, over, closing_rules, closing};
ghost use Rattle.narrow_field.specs.Narrow.{p};
ghost use Rattle.narrow_checker.specs.Said.{said};
ghost use Rattle.narrow_steps.specs.Said.{state_of, said_closed};

use super::state::{Back, State};
use narrow_checker::Failure;
use narrow_checker::whole::final_check;
use narrow_field::field::is_outside;
use refusals::Refusal;

impl State {
    // Whether closing is refused by 7.
    fn is_open(self) -> bool
        ensures { result ≡ either (forged (state_of self)) (not (over (state_of self))) }
    {
        self.is_forged() || !self.is_over()
    }

    // The refusals of a closing.
    fn close_refusal(self, value: u32) -> Result<(), Refusal>
        ensures { number_said result ≡ first (closing_rules p (state_of self) value) }
    {
        self.doubt()?;
        if self.is_open() {
            return Err(Refusal::StateForbids);
        }
        if is_outside(value) {
            return Err(Refusal::NoElement);
        }
        Ok(())
    }

    // What closing says of the claim: a rejected state gives its round, any other the final check against the value for f.
    fn verdict(self, value: u32) -> Result<(), Failure>
        ensures { said result ≡ (closing p (state_of self) value).outcome }
    {
        self.close_refusal(value)?;
        if self.rejected {
            return Err(Failure::Rejected(self.taken + 1));
        }
        final_check(self.vars, self.claim, value)
    }

    // The end of a checker: the running claim against the value that the caller gives for f.
    pub fn close(self, value: u32) -> Back<Result<(), Failure>>
        ensures { said_closed result ≡ closing p (state_of self) value }
    {
        Back {
            state: self,
            outcome: self.verdict(value),
        }
    }
}
