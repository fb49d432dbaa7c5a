// Answers in numbers: each answer of the library is converted to one of the structs.
ghost use Rattle.std.specs.Prelude.{◌≡◌, MatchResult};
ghost use Rattle.refusals.specs.Said.{number_of};
ghost use Rattle.narrow_steps.specs.Said.{state_of as checker_state};
ghost use Rattle.narrow_file.specs.Narrow.{said as said_reply};
ghost use Rattle.coded.specs.Coded.{with_value, turned_down, of_failure, of_head, of_state, state_of};

use crate::{Answer, File, State, Stepped};
use narrow_checker::Failure;
use narrow_file::{Fault, Head};
use narrow_steps::state::Back;
use refusals::Refusal;

impl From<u32> for Answer {
    ghost from_gives = { λ x answer. answer ≡ with_value x };

    // A value.
    fn from(x: u32) -> Answer {
        Answer {
            kind: 0,
            number: 0,
            line: 0,
            value: x,
        }
    }
}

impl From<()> for Answer {
    ghost from_gives = { λ done answer. answer ≡ with_value 0 };

    // Nothing but that it was not refused.
    fn from(_done: ()) -> Answer {
        Answer::from(0u32)
    }
}

impl From<Refusal> for Answer {
    ghost from_gives = { λ refusal answer. answer ≡ turned_down (number_of refusal) };

    // A refusal.
    fn from(refusal: Refusal) -> Answer {
        Answer {
            kind: 2,
            number: u32::from(refusal),
            line: 0,
            value: 0,
        }
    }
}

impl From<Failure> for Answer {
    ghost from_gives = { λ failure answer. answer ≡ of_failure failure };

    // A refusal or a rejecting round.
    fn from(failure: Failure) -> Answer {
        match failure {
            Failure::Refused(refusal) => Answer::from(refusal),
            Failure::Rejected(round) => Answer {
                kind: 1,
                number: round,
                line: 0,
                value: 0,
            },
        }
    }
}

impl<T: Into<Answer>, E: Into<Answer>> From<Result<T, E>> for Answer {
    ghost from_gives = { λ outcome answer. MatchResult outcome (λ x. T.converts x answer) (λ e. E.converts e answer) };

    // What was given, or why not.
    fn from(outcome: Result<T, E>) -> Answer {
        match outcome {
            Ok(x) => x.into(),
            Err(e) => e.into(),
        }
    }
}

impl From<Result<Head, Fault>> for File {
    ghost from_gives = { λ reply numbers. numbers ≡ of_head (said_reply reply) };

    // A file's head, or why it is none, and in which line.
    fn from(reply: Result<Head, Fault>) -> File {
        match reply {
            Ok(head) => File {
                kind: 0,
                number: 0,
                line: 0,
                vars: head.vars,
                degree: head.degree,
                claim: head.claim,
            },
            Err(fault) => File {
                kind: 2,
                number: u32::from(fault.refusal),
                line: fault.line,
                vars: 0,
                degree: 0,
                claim: 0,
            },
        }
    }
}

impl From<narrow_steps::state::State> for State {
    ghost from_gives = { λ s numbers. numbers ≡ of_state (checker_state s) };

    // The checker's state in numbers.
    fn from(s: narrow_steps::state::State) -> State {
        State {
            vars: s.vars,
            degree: s.degree,
            taken: s.taken,
            claim: s.claim,
            rejected: u32::from(s.rejected),
        }
    }
}

impl From<State> for narrow_steps::state::State {
    ghost from_gives = { λ s state. checker_state state ≡ state_of s };

    // The checker's state from numbers.
    fn from(s: State) -> narrow_steps::state::State {
        narrow_steps::state::State {
            vars: s.vars,
            degree: s.degree,
            taken: s.taken,
            claim: s.claim,
            rejected: s.rejected != 0,
        }
    }
}

impl<O: Into<Answer>> From<Back<O>> for Stepped {
    ghost from_gives = { λ back stepped. (stepped.state ≡ of_state (checker_state back.state)) × O.converts back.outcome stepped.answer };

    // What a call on a state hands back.
    fn from(back: Back<O>) -> Stepped {
        let Back { state, outcome } = back;
        Stepped {
            state: State::from(state),
            answer: outcome.into(),
        }
    }
}
