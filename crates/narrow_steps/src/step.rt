// A step of the checker (document 01, "What is offered"): one message, which travels as one array value, and one challenge. It doubts its state: 1, 2, 5
// on the running claim, 7, then 3 and 5 on what is given.
ghost use Rattle.std.specs.Prelude.{◌≡◌};
ghost use Rattle.refusals.specs.First.{first, either};
ghost use Rattle.refusals.specs.Said.{number_said};
ghost use Rattle.sumcheck.specs.Steps.{forged, over, step_rules, step};
ghost use Rattle.narrow_field.specs.Narrow.{p};
ghost use Rattle.narrow_steps.specs.Said.{state_of, said_stepped};

use super::state::{Back, State};
use narrow_array::round::{coefficients, sum_fits, value_at};
use narrow_checker::Failure;
use narrow_field::field::is_outside;
use narrow_lent::judge;
use narrow_lent::lengths::wide;
use refusals::Refusal;

impl State {
    // Whether a step is refused by 7.
    fn is_shut(self) -> bool
        ensures { result ≡ either (forged (state_of self)) (over (state_of self)) }
    {
        self.is_forged() || self.is_over()
    }

    // The refusals of a step.
    fn step_refusal(self, message: &[u32], challenge: u32) -> Result<(), Refusal>
        ensures { number_said result ≡ first (step_rules p (state_of self) message.now challenge) }
    {
        self.doubt()?;
        if self.is_shut() {
            return Err(Refusal::StateForbids);
        }
        if message.len() != wide(self.degree) + 1 {
            return Err(Refusal::WrongLength);
        }
        if is_outside(challenge) || judge::is_outside(message) {
            return Err(Refusal::NoElement);
        }
        Ok(())
    }

    // One round: its message and its challenge. A rejecting step sets the mark and changes nothing else.
    pub fn step(self, message: &[u32], challenge: u32) -> Back<Result<(), Failure>>
        ensures { said_stepped result ≡ step p (state_of self) message.now challenge }
    {
        if let Err(refusal) = self.step_refusal(message, challenge) {
            return Back {
                state: self,
                outcome: Err(refusal.into()),
            };
        }
        let c = coefficients(message);
        let round = self.taken + 1;
        if sum_fits(c, self.claim) {
            let claim = value_at(c, challenge);
            return Back {
                state: State {
                    taken: round,
                    claim,
                    ..self
                },
                outcome: Ok(()),
            };
        }
        Back {
            state: State {
                rejected: true,
                ..self
            },
            outcome: Err(Failure::Rejected(round)),
        }
    }
}
