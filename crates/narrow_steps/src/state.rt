// The state of a checker in steps and its opening (document 01, "What is offered"). The state goes in by value and comes back by value at each step.
// A state of any numbers whatever gets its answer; a refused call hands it back unchanged.
ghost use Rattle.std.specs.Prelude.{◌≡◌};
ghost use Rattle.refusals.specs.First.{first};
ghost use Rattle.refusals.specs.Said.{number_said};
ghost use Rattle.sumcheck.specs.Steps.{forged, over, opening_rules, opening};
ghost use Rattle.narrow_field.specs.Narrow.{p};
ghost use Rattle.narrow_steps.specs.Said.{state_of, said_opened};

use narrow_field::field::is_outside;
use narrow_lent::judge;
use refusals::Refusal;

// What the state holds: the shape, rounds taken, the running claim and a rejected mark. The mark stands beside the rounds, as document 01 has it: a state
// of any numbers and any mark has its answer.
#[derive(Clone, Copy, Debug, PartialEq, Eq)]
pub struct State {
    pub vars: u32,
    pub degree: u32,
    pub taken: u32,
    pub claim: u32,
    pub rejected: bool,
}

// What a call on a state hands back: the state, and its outcome.
#[derive(Clone, Copy, Debug, PartialEq, Eq)]
pub struct Back<O> {
    pub state: State,
    pub outcome: O,
}

impl State {
    // Refusals 1, 2 and 5 of the shape and the running claim: what opening judges, and what a step or closing doubts first.
    pub(crate) fn doubt(self) -> Result<(), Refusal>
        ensures { number_said result ≡ first (opening_rules p self.vars self.degree self.claim) }
    {
        judge::shape(self.vars, self.degree)?;
        if is_outside(self.claim) {
            return Err(Refusal::NoElement);
        }
        Ok(())
    }

    // Whether any use is refused by 7: more rounds taken than vars, or rejected with all rounds taken.
    pub(crate) fn is_forged(self) -> bool
        ensures { result ≡ forged (state_of self) }
    {
        self.vars < self.taken || self.rejected && self.taken == self.vars
    }

    // Whether no step is left: rejected or complete.
    pub(crate) fn is_over(self) -> bool
        ensures { result ≡ over (state_of self) }
    {
        self.rejected || self.taken == self.vars
    }

    // The first state of a checker. Where opening is refused, every use of that state is refused by the same number.
    pub fn open(vars: u32, degree: u32, claim: u32) -> Back<Result<(), Refusal>>
        ensures { said_opened result ≡ opening p vars degree claim }
    {
        let state = State {
            vars,
            degree,
            taken: 0,
            claim,
            rejected: false,
        };
        if let Err(refusal) = state.doubt() {
            return Back {
                state,
                outcome: Err(refusal),
            };
        }
        Back {
            state,
            outcome: Ok(()),
        }
    }
}
