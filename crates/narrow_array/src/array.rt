// Products and sums of polynomials in an array value. Every function takes every input.
ghost use Rattle.std.specs.Prelude.{◌≡◌};
ghost use Rattle.arithmetic.specs.Modulo.{sub};
ghost use Rattle.polynomial.specs.Polynomial.{plus as plus_of};
ghost use Rattle.polynomial.specs.Array.{line_times};
ghost use Rattle.narrow_field.specs.Narrow.{p};

use crate::round::COEFFICIENTS;
use narrow_field::modulo::{less, plus, times};
use std::array;

// The line with the values low at 0 and high at 1, times a polynomial; what goes past the array is cut off.
pub fn line_times(c: [u32; COEFFICIENTS], low: u32, high: u32) -> [u32; COEFFICIENTS]
    ensures { result ≡ line_times p low (sub p high low) 0 c }
{
    let slope = less(high, low);
    // The polynomial times X.
    let raised = [0, c[0], c[1], c[2]];
    array::from_fn(|i| plus(times(low, c[i]), times(slope, raised[i])))
}

// The sum of two polynomials.
pub fn added(a: [u32; COEFFICIENTS], b: [u32; COEFFICIENTS]) -> [u32; COEFFICIENTS]
    ensures { result ≡ plus_of p a b }
{
    array::from_fn(|i| plus(a[i], b[i]))
}
