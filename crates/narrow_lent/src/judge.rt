// Judging what is lent (document 01, "When a call is turned down"): each test of the table of refusals once. Every function takes every input.
ghost use Rattle.std.specs.Prelude.{◌≡◌, not, [], ◌∷◌, eqb};
ghost use Rattle.refusals.specs.First.{◌when◌, first, outside};
ghost use Rattle.refusals.specs.Said.{number_said};
ghost use Rattle.sumcheck.specs.Lent.{bad_vars, bad_degree, tables_length};
ghost use Rattle.narrow_field.specs.Narrow.{p};

use super::lengths::{size, wide};
use narrow_field::P;
use refusals::{MAX_DEGREE, MAX_VARS, Refusal};

// Refusals 1 and 2.
pub fn shape(vars: u32, degree: u32) -> Result<(), Refusal>
    ensures { number_said result ≡ first (1 when bad_vars vars ∷ 2 when bad_degree degree ∷ []) }
{
    if MAX_VARS < vars {
        return Err(Refusal::TooManyVars);
    }
    if degree == 0 || MAX_DEGREE < degree {
        return Err(Refusal::BadDegree);
    }
    Ok(())
}

// Refusals 1, 2, and 3 for tables of so many numbers.
pub fn tables(vars: u32, degree: u32, long: usize) -> Result<(), Refusal>
    ensures { number_said result ≡ first (1 when bad_vars vars ∷ 2 when bad_degree degree ∷ 3 when not (eqb long (tables_length vars degree)) ∷ []) }
{
    shape(vars, degree)?;
    if long != wide(degree) * size(vars) {
        return Err(Refusal::WrongLength);
    }
    Ok(())
}

// Whether some number of a list is no element.
pub fn is_outside(list: &[u32]) -> bool
    ensures { result ≡ outside p list.now }
{
    list.iter().any(|&x| P <= x)
}
