// Five operations of the field, with refusal 5 where an operand is no element (document 01); the sixth is in `inverse`.
ghost use Rattle.std.specs.Prelude.{◌≡◌, [], ◌∷◌};
ghost use Rattle.refusals.specs.First.{◌when◌, decide, outside};
ghost use Rattle.refusals.specs.Said.{said};
ghost use Rattle.narrow_field.specs.Narrow.{p};
ghost use Rattle.narrow_field.specs.Field.{sum_of, difference_of, negative_of, product_of, power_of};

use super::P;
use super::modulo::{less, minus, plus, times, to_power};
use refusals::Refusal;

// Whether x is no element.
pub fn is_outside(x: u32) -> bool
    ensures { result ≡ outside p (x ∷ []) }
{
    P <= x
}

// Refusal 5 where a number is no element.
fn element(x: u32) -> Result<(), Refusal>
    ensures { said result ≡ decide (5 when outside p (x ∷ []) ∷ []) tt }
{
    if is_outside(x) {
        return Err(Refusal::NoElement);
    }
    Ok(())
}

// Refusal 5 where one of two numbers is no element.
fn elements(a: u32, b: u32) -> Result<(), Refusal>
    ensures { said result ≡ decide (5 when outside p (a ∷ b ∷ []) ∷ []) tt }
{
    element(a)?;
    element(b)
}

// a + b.
pub fn sum(a: u32, b: u32) -> Result<u32, Refusal>
    ensures { said result ≡ sum_of a b }
{
    elements(a, b)?;
    Ok(plus(a, b))
}

// a - b.
pub fn difference(a: u32, b: u32) -> Result<u32, Refusal>
    ensures { said result ≡ difference_of a b }
{
    elements(a, b)?;
    Ok(less(a, b))
}

// -a.
pub fn negative(a: u32) -> Result<u32, Refusal>
    ensures { said result ≡ negative_of a }
{
    element(a)?;
    Ok(minus(a))
}

// a · b.
pub fn product(a: u32, b: u32) -> Result<u32, Refusal>
    ensures { said result ≡ product_of a b }
{
    elements(a, b)?;
    Ok(times(a, b))
}

// a to the power e; 0 to the power 0 is 1.
pub fn power(a: u32, e: u64) -> Result<u32, Refusal>
    ensures { said result ≡ power_of a e }
{
    element(a)?;
    Ok(to_power(a, e))
}
