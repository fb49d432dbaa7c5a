// The inverse of an element by Euclid's algorithm, in 46 steps at most; refusals 5 and 6 in document 01's order.
ghost use Rattle.std.specs.Prelude.{◌≡◌, ◌<◌};
ghost use Rattle.arithmetic.specs.Prime.{inverse};
ghost use Rattle.narrow_field.specs.Narrow.{p};
ghost use Rattle.refusals.specs.Said.{said};
ghost use Rattle.narrow_field.specs.Field.{inverse_of};

use super::P;
use super::modulo::{less, times};
use refusals::Refusal;

// The inverse of a, which is no 0. Each remainder is a times its coefficient, modulo p. It ends at the remainder 1, and no place is counted.
fn inverse_of(a: u32) -> u32
    requires { (0 < a) × (a < p) }
    ensures { result ≡ inverse p a }
{
    let mut first = P;
    let mut second = a;
    let mut before: u32 = 0;
    let mut coefficient: u32 = 1;
    while second != 1 {
        let next = less(before, times(first / second, coefficient));
        let rest = first % second;
        first = second;
        second = rest;
        before = coefficient;
        coefficient = next;
    }
    coefficient
}

// The element that times a gives 1.
pub fn inverse(a: u32) -> Result<u32, Refusal>
    ensures { said result ≡ inverse_of a }
{
    if P <= a {
        return Err(Refusal::NoElement);
    }
    if a == 0 {
        return Err(Refusal::InverseOfZero);
    }
    Ok(inverse_of(a))
}
