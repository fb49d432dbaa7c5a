// The checker without tables (document 01, "What is offered"): the rounds one after the other. All that is lent is judged before any round is.
ghost use Rattle.std.specs.Prelude.{◌≡◌, suc, ◌*◌, ◌≤◌, length};
ghost use Rattle.refusals.specs.Limits.{max_vars, max_degree};
ghost use Rattle.refusals.specs.First.{first, given};
ghost use Rattle.refusals.specs.Said.{number_said};
ghost use Rattle.sumcheck.specs.Lent.{parts};
ghost use Rattle.sumcheck.specs.Protocol.{rounds};
ghost use Rattle.sumcheck.specs.Entries.{rounds_rules, rounds_answer};
ghost use Rattle.narrow_field.specs.Narrow.{p};
ghost use Rattle.narrow_checker.specs.Said.{said_rounds};

use super::Failure;
use super::sent::Sent;
use narrow_array::round::{coefficients, sum_fits, value_at};
use narrow_lent::judge;
use narrow_lent::lengths::wide;
use refusals::Refusal;

impl Sent<'_> {
    // The refusals without tables.
    fn refusal(self, vars: u32, degree: u32) -> Result<(), Refusal>
        ensures { let s = self.entry in number_said result ≡ first (rounds_rules p vars degree s.claim s.challenges.now s.messages.now) }
    {
        judge::shape(vars, degree)?;
        if self.is_not_long(vars, degree) {
            return Err(Refusal::WrongLength);
        }
        if self.is_outside() {
            return Err(Refusal::NoElement);
        }
        Ok(())
    }

    // The rounds one after the other: each message, of so many coefficients, is one array value that is judged and then put at its challenge.
    pub(crate) fn walk(self, width: usize) -> Result<u32, Failure>
        requires { let s = self in
            (length s.challenges.now ≤ max_vars) × (width ≤ suc max_degree) × (length s.challenges.now * width ≡ length s.messages.now) }
        ensures { let s = self.entry in
            said_rounds result ≡ given (rounds p s.claim s.challenges.now (parts (length s.challenges.now) width s.messages.now)) }
    {
        let mut running = self.claim;
        for (taken, &challenge) in self.challenges.iter().enumerate() {
            // By its place: `chunks_exact` would ask that there is a coefficient at all, and the round is counted anyway.
            let start = taken * width;
            let c = coefficients(&self.messages[start..start + width]);
            if !sum_fits(c, running) {
                // It fits, as there are few rounds; `try_from` would want an answer for more.
                return Err(Failure::Rejected(taken as u32 + 1));
            }
            running = value_at(c, challenge);
        }
        Ok(running)
    }
}

// The form without tables: the last value in place of the final check.
pub fn check_rounds(
    vars: u32,
    degree: u32,
    claim: u32,
    challenges: &[u32],
    messages: &[u32],
) -> Result<u32, Failure>
    ensures { said_rounds result ≡ rounds_answer p vars degree claim challenges.now messages.now }
{
    let sent = Sent {
        claim,
        challenges,
        messages,
    };
    sent.refusal(vars, degree)?;
    sent.walk(wide(degree) + 1)
}
