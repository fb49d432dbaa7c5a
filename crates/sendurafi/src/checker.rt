// The checker: in one call, without tables, in steps; the round part.
ghost use Rattle.std.specs.Prelude.{◌≡◌};
ghost use Rattle.sumcheck.specs.Entries.{checker_answer, rounds_answer};
ghost use Rattle.sumcheck.specs.Steps.{opening, step, closing};
ghost use Rattle.sumcheck.specs.Part.{part_refusal, part_start, part_length};
ghost use Rattle.narrow_field.specs.Narrow.{p};
ghost use Rattle.coded.specs.Coded.{of_verdict, of_rounds, of_opened, of_stepped, state_of};

use coded::{Answer, Part, State, Stepped};
use narrow_checker::whole::check;
use narrow_checker::without_tables::check_rounds;
use narrow_message::part::{round_part_length, round_part_refusal, round_part_start};

// The checker with tables.
#[unsafe(no_mangle)]
pub extern "C" fn sendurafi_check(
    vars: u32,
    degree: u32,
    tables: &[u32],
    claim: u32,
    challenges: &[u32],
    messages: &[u32],
) -> Answer
    ensures { result ≡ of_verdict (checker_answer p vars degree tables.now claim challenges.now messages.now) }
{
    check(vars, degree, tables, claim, challenges, messages).into()
}

// The checker without tables.
#[unsafe(no_mangle)]
pub extern "C" fn sendurafi_check_rounds(
    vars: u32,
    degree: u32,
    claim: u32,
    challenges: &[u32],
    messages: &[u32],
) -> Answer
    ensures { result ≡ of_rounds (rounds_answer p vars degree claim challenges.now messages.now) }
{
    check_rounds(vars, degree, claim, challenges, messages).into()
}

// The first state of a checker in steps.
#[unsafe(no_mangle)]
pub extern "C" fn sendurafi_open(vars: u32, degree: u32, claim: u32) -> Stepped
    ensures { result ≡ of_opened (opening p vars degree claim) }
{
    narrow_steps::state::State::open(vars, degree, claim).into()
}

// One step.
#[unsafe(no_mangle)]
pub extern "C" fn sendurafi_step(state: State, message: &[u32], challenge: u32) -> Stepped
    ensures { result ≡ of_stepped (step p (state_of state) message.now challenge) }
{
    let s = narrow_steps::state::State::from(state);
    s.step(message, challenge).into()
}

// The end of a checker in steps.
#[unsafe(no_mangle)]
pub extern "C" fn sendurafi_close(state: State, value: u32) -> Answer
    ensures { result ≡ of_verdict (closing p (state_of state) value).outcome }
{
    let s = narrow_steps::state::State::from(state);
    s.close(value).outcome.into()
}

// The number of the round part's refusal; 0 if none, since C has no result.
#[unsafe(no_mangle)]
pub extern "C" fn sendurafi_round_part_refusal(
    vars: u32,
    degree: u32,
    messages: &[u32],
    round: u32,
) -> u32
    ensures { result ≡ part_refusal vars degree messages.now round }
{
    match round_part_refusal(vars, degree, messages, round) {
        Ok(()) => 0,
        Err(refusal) => refusal.into(),
    }
}

// Where the round part starts in the caller's list, and how long it is.
#[unsafe(no_mangle)]
pub extern "C" fn sendurafi_round_part(vars: u32, degree: u32, messages: &[u32], round: u32) -> Part
    ensures { (result.start ≡ part_start vars degree messages.now round) × (result.length ≡ part_length vars degree messages.now round) }
{
    let start = round_part_start(vars, degree, messages, round);
    let length = round_part_length(vars, degree, messages, round);
    Part { start, length }
}
