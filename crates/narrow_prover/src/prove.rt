// The prover (document 01, "What is offered"): refusals 1, 2, 3, 4, 5 in that order, and no lent place touched before all are passed; then a round's
// polynomial after the other, each into its own part of the lent message list, the tables folded in scratch, and scratch cleared.
ghost use Rattle.std.specs.Prelude.{◌≡◌, ◌++◌, map, ◌+◌, ◌*◌, ◌≤◌, ◌<◌, length, drop, replicate};
ghost use Rattle.refusals.specs.Limits.{max_degree};
ghost use Rattle.refusals.specs.Said.{said};
ghost use Rattle.sumcheck.specs.TruePolynomial.{true_polynomials};
ghost use Rattle.sumcheck.specs.Lent.{parts, join};
ghost use Rattle.sumcheck.specs.Entries.{prover_answer, messages_after, scratch_after};
ghost use Rattle.sumcheck.proofs.FoldedParts.{folded_part};
ghost use Rattle.sumcheck.proofs.Laid.{laid};
ghost use Rattle.sumcheck.proofs.Progress.{Setting};
ghost use Rattle.sumcheck.proofs.RoundFolded.{round_of};
ghost use Rattle.narrow_field.specs.Narrow.{p};
ghost use Rattle.narrow_lent.specs.Tables.{lists};

use crate::folding::Folding;
use crate::memory::copy;
use narrow_lent::lengths::{size, wide};
use narrow_lent::prover::prover_refusal;
use narrow_lent::tables::Tables;
use refusals::Refusal;

impl Folding {
    // One round: its polynomial is written to the front of its part of the message list, and the tables are folded by its challenge.
    fn write_round(self, part: &mut [u32], tables: &mut [u32], r: u32)
        requires { (0 < self.half) × (self.count * self.places ≤ length tables.old) × (self.count + 1 ≤ length part.old) }
        ensures { (part.new ≡ round_of p self.half (parts self.count self.places tables.old) ++ drop (self.count + 1) part.old)
            × (tables.new ≡ laid self.places (map (folded_part p r self.half) (parts self.count self.places tables.old)) tables.old) }
    {
        let coefficients = self.round(tables);
        let given = self.count + 1;
        part[..given].copy_from_slice(&coefficients[..given]);
        self.fold(tables, r);
    }
}

// All rounds, once nothing is refused.
fn run(lent: Tables, challenges: &[u32], messages: &mut [u32], scratch: &mut [u32])
    requires { (lent.count ≤ max_degree) × Setting p lent.count lent.places lent.numbers.now challenges.now messages.old scratch.old }
    ensures { let t = lent.entry in
        (messages.new ≡ join (true_polynomials p (lists t) challenges.now) ++ drop (length challenges.now * (t.count + 1)) messages.old)
        × (scratch.new ≡ replicate (t.count * t.places) 0 ++ drop (t.count * t.places) scratch.old) }
{
    copy(lent.numbers, scratch);
    let mut size = lent.places;
    for (j, &r) in challenges.iter().enumerate() {
        let start = j * (lent.count + 1);
        size /= 2;
        let folding = Folding {
            count: lent.count,
            places: lent.places,
            half: size,
        };
        folding.write_round(&mut messages[start..], scratch, r);
    }
    scratch[..lent.numbers.len()].fill(0);
}

// The prover.
pub fn prove(
    vars: u32,
    degree: u32,
    tables: &[u32],
    challenges: &[u32],
    messages: &mut [u32],
    scratch: &mut [u32],
) -> Result<(), Refusal>
    ensures { (said result ≡ prover_answer p vars degree tables.now challenges.now messages.old scratch.old)
        × ((messages.new ≡ messages_after p vars degree tables.now challenges.now messages.old scratch.old)
        × (scratch.new ≡ scratch_after p vars degree tables.now challenges.now messages.old scratch.old)) }
{
    prover_refusal(vars, degree, tables, challenges, messages, scratch)?;
    // Known to be right by now; `Tables::lent` would judge them again.
    let lent = Tables {
        numbers: tables,
        count: wide(degree),
        places: size(vars),
    };
    run(lent, challenges, messages, scratch);
    Ok(())
}
