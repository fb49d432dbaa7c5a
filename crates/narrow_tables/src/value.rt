// The value of f at a point (document 01, "What is offered"). It goes by halves of a table, so it needs no scratch: about 2^m products for each table.
ghost use Rattle.std.specs.Prelude.{◌≡◌, ◌^◌, length};
ghost use Rattle.refusals.specs.Said.{said};
ghost use Rattle.sumcheck.specs.Extension.{extension};
ghost use Rattle.sumcheck.specs.Function.{f};
ghost use Rattle.sumcheck.specs.Folding.{between};
ghost use Rattle.sumcheck.specs.Entries.{value_answer, value_or_zero};
ghost use Rattle.narrow_field.specs.Narrow.{p};
ghost use Rattle.narrow_lent.specs.Tables.{lists};

use narrow_field::modulo::{less, plus, times, times_plus};
use narrow_lent::judge::is_outside;
use narrow_lent::lengths::wide;
use narrow_lent::tables::Tables;
use refusals::Refusal;

// The point at r on the line from a (at 0) to b (at 1).
pub fn point_between(r: u32, a: u32, b: u32) -> u32
    ensures { result ≡ between p r a b }
{
    times_plus(r, less(b, a), a)
}

// The extension of a table at a point: between the extensions of its halves at the rest of the point.
fn extension_at(table: &[u32], point: &[u32]) -> u32
    requires { length table.now ≡ 2 ^ length point.now }
    ensures { result ≡ extension p table.now point.now }
{
    let Some((&r, rest)) = point.split_first() else {
        return plus(table[0], 0);
    };
    let (lower, upper) = table.split_at(table.len() / 2);
    let low = extension_at(lower, rest);
    let high = extension_at(upper, rest);
    point_between(r, low, high)
}

// The product of the tables' extensions at a point.
fn product_at(tables: Tables, point: &[u32]) -> u32
    requires { tables.places ≡ 2 ^ length point.now }
    ensures { result ≡ f p (lists tables.entry) point.now }
{
    let mut value: u32 = 1;
    for table in 0..tables.count {
        let start = table * tables.places;
        value = times(
            value,
            extension_at(&tables.numbers[start..start + tables.places], point),
        );
    }
    value
}

// The value of f at a point where vars, degree and the lengths are right; 0 where they are not, as `value_or_zero` has it.
pub fn f_at(vars: u32, degree: u32, tables: &[u32], point: &[u32]) -> u32
    ensures { result ≡ value_or_zero p vars degree tables.now point.now }
{
    match Tables::lent(vars, degree, tables) {
        Ok(lent) if point.len() == wide(vars) => product_at(lent, point),
        _ => 0,
    }
}

// The value of f at a point: refusals 1, 2, 3, 5.
pub fn value_at(vars: u32, degree: u32, tables: &[u32], point: &[u32]) -> Result<u32, Refusal>
    ensures { said result ≡ value_answer p vars degree tables.now point.now }
{
    let lent = Tables::lent(vars, degree, tables)?;
    if point.len() != wide(vars) {
        return Err(Refusal::WrongLength);
    }
    if lent.is_outside() || is_outside(point) {
        return Err(Refusal::NoElement);
    }
    Ok(product_at(lent, point))
}
