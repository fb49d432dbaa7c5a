// What is lent to the prover, judged (document 01, "When a call is turned down"): 1, 2, 3, 4, 5 in that order. It takes every input.
ghost use Rattle.std.specs.Prelude.{◌≡◌};
ghost use Rattle.refusals.specs.First.{first};
ghost use Rattle.refusals.specs.Said.{number_said};
ghost use Rattle.sumcheck.specs.Entries.{prover_rules};
ghost use Rattle.narrow_field.specs.Narrow.{p};

use super::judge;
use super::lengths::{messages_length, wide};
use super::tables::Tables;
use refusals::Refusal;

// The prover's refusals.
pub fn prover_refusal(
    vars: u32,
    degree: u32,
    tables: &[u32],
    challenges: &[u32],
    messages: &[u32],
    scratch: &[u32],
) -> Result<(), Refusal>
    ensures { number_said result ≡ first (prover_rules p vars degree tables.now challenges.now messages.now scratch.now) }
{
    let lent = Tables::lent(vars, degree, tables)?;
    if challenges.len() != wide(vars) {
        return Err(Refusal::WrongLength);
    }
    if messages.len() < messages_length(vars, degree) {
        return Err(Refusal::TooShort);
    }
    if scratch.len() < tables.len() {
        return Err(Refusal::TooShort);
    }
    if lent.is_outside() || judge::is_outside(challenges) {
        return Err(Refusal::NoElement);
    }
    Ok(())
}
