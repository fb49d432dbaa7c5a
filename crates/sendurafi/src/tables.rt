// Tables and the prover.
ghost use Rattle.std.specs.Prelude.{◌≡◌};
ghost use Rattle.sumcheck.specs.Entries.{sum_answer, value_answer, prover_answer, messages_after, scratch_after};
ghost use Rattle.narrow_field.specs.Narrow.{p};
ghost use Rattle.coded.specs.Coded.{of_number, of_done};

use coded::Answer;
use narrow_prover::prove::prove;
use narrow_tables::sum::true_sum;
use narrow_tables::value::value_at;

// The true sum of lent tables.
#[unsafe(no_mangle)]
pub extern "C" fn sendurafi_true_sum(vars: u32, degree: u32, tables: &[u32]) -> Answer
    ensures { result ≡ of_number (sum_answer p vars degree tables.now) }
{
    true_sum(vars, degree, tables).into()
}

// The value of f at a point.
#[unsafe(no_mangle)]
pub extern "C" fn sendurafi_value_at(
    vars: u32,
    degree: u32,
    tables: &[u32],
    point: &[u32],
) -> Answer
    ensures { result ≡ of_number (value_answer p vars degree tables.now point.now) }
{
    value_at(vars, degree, tables, point).into()
}

// The prover.
#[unsafe(no_mangle)]
pub extern "C" fn sendurafi_prove(
    vars: u32,
    degree: u32,
    tables: &[u32],
    challenges: &[u32],
    messages: &mut [u32],
    scratch: &mut [u32],
) -> Answer
    ensures { (result ≡ of_done (prover_answer p vars degree tables.now challenges.now messages.old scratch.old))
        × ((messages.new ≡ messages_after p vars degree tables.now challenges.now messages.old scratch.old)
        × (scratch.new ≡ scratch_after p vars degree tables.now challenges.now messages.old scratch.old)) }
{
    prove(vars, degree, tables, challenges, messages, scratch).into()
}
