// The checker with tables in one call (document 01, "What is offered"). All that is lent is judged before any round is.
ghost use Rattle.std.specs.Prelude.{◌≡◌, ◌∷◌, ◌++◌};
ghost use Rattle.refusals.specs.First.{first, given, outside};
ghost use Rattle.refusals.specs.Said.{number_said};
ghost use Rattle.sumcheck.specs.Protocol.{reached, final};
ghost use Rattle.sumcheck.specs.Entries.{checker_rules, checker_answer};
ghost use Rattle.narrow_field.specs.Narrow.{p};
ghost use Rattle.narrow_checker.specs.Said.{said};

use super::Failure;
use super::sent::Sent;
use narrow_lent::lengths::wide;
use narrow_lent::tables::Tables;
use narrow_tables::value::f_at;
use refusals::Refusal;

// Whether some number of tables and of what is sent is no element.
#[tactic(auto, using(crate::proofs::Lists::lists))]
fn some_outside(tables: Tables, sent: Sent) -> bool
    ensures { let s = sent.entry in result ≡ outside p (tables.entry.numbers.now ++ (s.claim ∷ s.challenges.now ++ s.messages.now)) }
{
    tables.is_outside() || sent.is_outside()
}

// The refusals with tables.
fn check_refusal(vars: u32, degree: u32, tables: &[u32], sent: Sent) -> Result<(), Refusal>
    ensures { let s = sent.entry in
        number_said result ≡ first (checker_rules p vars degree tables.now s.claim s.challenges.now s.messages.now) }
{
    let lent = Tables::lent(vars, degree, tables)?;
    if sent.is_not_long(vars, degree) {
        return Err(Refusal::WrongLength);
    }
    if some_outside(lent, sent) {
        return Err(Refusal::NoElement);
    }
    Ok(())
}

// The final check: where it fails it is reported as round m.
pub fn final_check(vars: u32, last: u32, value: u32) -> Result<(), Failure>
    ensures { said result ≡ given (final vars value (reached last)) }
{
    if last == value {
        return Ok(());
    }
    Err(Failure::Rejected(vars))
}

// The checker: the first round whose sum fails is rejected; after the last round comes the final check.
pub fn check(
    vars: u32,
    degree: u32,
    tables: &[u32],
    claim: u32,
    challenges: &[u32],
    messages: &[u32],
) -> Result<(), Failure>
    ensures { said result ≡ checker_answer p vars degree tables.now claim challenges.now messages.now }
{
    let sent = Sent {
        claim,
        challenges,
        messages,
    };
    check_refusal(vars, degree, tables, sent)?;
    let last = sent.walk(wide(degree) + 1)?;
    final_check(vars, last, f_at(vars, degree, tables, challenges))
}
