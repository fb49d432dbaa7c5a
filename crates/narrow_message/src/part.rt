// The round part (document 01, "What is offered"): asked for round j, from 1, of a message list, the part of the caller's own list, not a copy.
ghost use Rattle.std.specs.Prelude.{◌≡◌};
ghost use Rattle.refusals.specs.Said.{number_said};
ghost use Rattle.sumcheck.specs.Part.{part_refusal, part_start, part_length, part_of};
ghost use Rattle.narrow_message.specs.Place.{place_at};

use narrow_lent::judge;
use narrow_lent::lengths::{messages_length, wide};
use refusals::Refusal;

// The refusals: 1, 2, 3, 8.
pub fn round_part_refusal(
    vars: u32,
    degree: u32,
    messages: &[u32],
    round: u32,
) -> Result<(), Refusal>
    ensures { number_said result ≡ part_refusal vars degree messages.now round }
{
    judge::shape(vars, degree)?;
    if messages.len() != messages_length(vars, degree) {
        return Err(Refusal::WrongLength);
    }
    if round == 0 || vars < round {
        return Err(Refusal::NoSuchRound);
    }
    Ok(())
}

// Where round j's part starts, (j-1)(k+1); 0 where refused, as `part_start` has it: C is told the refusal by itself.
pub fn round_part_start(vars: u32, degree: u32, messages: &[u32], round: u32) -> usize
    ensures { result ≡ part_start vars degree messages.now round }
{
    match round_part_refusal(vars, degree, messages, round) {
        Ok(()) => wide(round - 1) * (wide(degree) + 1),
        Err(_) => 0,
    }
}

// How long it is, k+1; 0 where refused, as `part_length` has it.
pub fn round_part_length(vars: u32, degree: u32, messages: &[u32], round: u32) -> usize
    ensures { result ≡ part_length vars degree messages.now round }
{
    match round_part_refusal(vars, degree, messages, round) {
        Ok(()) => wide(degree) + 1,
        Err(_) => 0,
    }
}

// Round j's message as a part of the caller's own list. Where refused, the empty part at the list's start.
#[tactic(auto, using(sumcheck::proofs::Part::part_within))]
pub fn round_part(vars: u32, degree: u32, messages: &[u32], round: u32) -> &[u32]
    ensures part { result.now ≡ part_of vars degree messages.now round }
    ensures place { result.ref_ptr ≡ place_at messages.entry.ref_ptr (part_start vars degree messages.now round) }
{
    let start = round_part_start(vars, degree, messages, round);
    let end = start + round_part_length(vars, degree, messages, round);
    &messages[start..end]
}
