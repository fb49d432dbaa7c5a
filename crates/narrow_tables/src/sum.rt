// The true sum of lent tables (document 01, "What is offered"), place by place.
ghost use Rattle.std.specs.Prelude.{◌≡◌, map, ◌<◌};
ghost use Rattle.refusals.specs.Said.{said};
ghost use Rattle.polynomial.specs.Elements.{sum, count_from};
ghost use Rattle.sumcheck.specs.Entries.{sum_answer};
ghost use Rattle.sumcheck.proofs.Halves.{column};
ghost use Rattle.narrow_field.specs.Narrow.{p};
ghost use Rattle.narrow_lent.specs.Tables.{lists};

use narrow_field::modulo::{plus, times};
use narrow_lent::tables::Tables;
use refusals::Refusal;

// The product of the tables' values at place i.
fn column_at(tables: Tables, i: usize) -> u32
    requires { i < tables.places }
    ensures { result ≡ column p (lists tables.entry) i }
{
    let mut value: u32 = 1;
    for table in 0..tables.count {
        value = times(value, tables.numbers[table * tables.places + i]);
    }
    value
}

// The sum of those products over all places.
fn sum_of(tables: Tables) -> u32
    ensures { result ≡ sum p (map (column p (lists tables.entry)) (count_from 0 tables.entry.places)) }
{
    let mut total: u32 = 0;
    for i in (0..tables.places).rev() {
        total = plus(column_at(tables, i), total);
    }
    total
}

// The true sum: refusals 1, 2, 3, 5.
pub fn true_sum(vars: u32, degree: u32, tables: &[u32]) -> Result<u32, Refusal>
    ensures { said result ≡ sum_answer p vars degree tables.now }
{
    let lent = Tables::lent(vars, degree, tables)?;
    if lent.is_outside() {
        return Err(Refusal::NoElement);
    }
    Ok(sum_of(lent))
}
