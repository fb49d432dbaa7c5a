// A round's message as an array value, its value at a point, and its sum. Every function takes every input.
ghost use Rattle.std.specs.Prelude.{◌≡◌, suc};
ghost use Rattle.refusals.specs.Limits.{max_degree};
ghost use Rattle.polynomial.specs.Polynomial.{value};
ghost use Rattle.polynomial.specs.Array.{padded};
ghost use Rattle.sumcheck.specs.Protocol.{fits};
ghost use Rattle.narrow_field.specs.Narrow.{p};

use narrow_field::modulo::{plus, times_plus};
use std::array;

// As many coefficients as the largest degree has.
pub const COEFFICIENTS: usize = refusals::MAX_DEGREE as usize + 1;

// A message as an array.
pub fn coefficients(message: &[u32]) -> [u32; COEFFICIENTS]
    ensures { result ≡ padded (suc max_degree) message.now }
{
    array::from_fn(|i| message.get(i).copied().unwrap_or(0))
}

// The value at x, by Horner's rule from the top.
pub fn value_at(c: [u32; COEFFICIENTS], x: u32) -> u32
    ensures { result ≡ value p c x }
{
    c.iter().rev().fold(0, |value, &k| times_plus(value, x, k))
}

// Whether s(0) + s(1) is the claim.
pub fn sum_fits(c: [u32; COEFFICIENTS], claim: u32) -> bool
    ensures { result ≡ fits p c claim }
{
    plus(value_at(c, 0), value_at(c, 1)) == claim
}
