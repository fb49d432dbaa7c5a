// Lent tables (document 01, "Terms"): so many of one size, one after the other in the caller's own list.
ghost use Rattle.std.specs.Prelude.{◌≡◌, ◌*◌, ◌∷◌, [], ◌^◌, length, IfOk};
ghost use Rattle.refusals.specs.First.{◌when◌, first, outside};
ghost use Rattle.refusals.specs.Said.{number_said};
ghost use Rattle.sumcheck.specs.Lent.{bad_vars, bad_degree, not_long, tables_length, first_outside};
ghost use Rattle.narrow_field.specs.Narrow.{p};

use super::judge;
use super::lengths::{size, wide};
use narrow_field::P;
use refusals::Refusal;

// So many tables, each of so many numbers: the one numbered k begins at k · places. A method that gives it would ask that there is one, and no public
// function asks for anything.
#[derive(Clone, Copy)]
pub struct Tables<'a> {
    pub numbers: &'a [u32],
    pub count: usize,
    pub places: usize,
    ghost laid: { length numbers.now ≡ count * places },
}

impl<'a> Tables<'a> {
    // The tables that a list holds: refusals 1, 2, 3.
    pub fn lent(vars: u32, degree: u32, numbers: &'a [u32]) -> Result<Tables<'a>, Refusal>
        ensures refusal { number_said result
            ≡ first (1 when bad_vars vars ∷ 2 when bad_degree degree ∷ 3 when not_long (tables_length vars degree) numbers.now ∷ []) }
        ensures tables { IfOk result (λ t. (t.numbers.now ≡ numbers.now) × (t.count ≡ degree) × (t.places ≡ 2 ^ vars)) }
    {
        judge::tables(vars, degree, numbers.len())?;
        Ok(Tables {
            numbers,
            count: wide(degree),
            places: size(vars),
        })
    }

    // The place of the first number that is no element, walking table by table and place by place; the list's length where there is none. The walk by
    // tables and places is document 01's; a list that is no table is searched by `judge::is_outside`.
    fn first_outside(self) -> usize
        ensures { result ≡ first_outside p self.entry.numbers.now }
    {
        'scan: {
            for table in 0..self.count {
                for i in 0..self.places {
                    if P <= self.numbers[table * self.places + i] {
                        break 'scan table * self.places + i;
                    }
                }
            }
            self.numbers.len()
        }
    }

    // Whether some number is no element.
    pub fn is_outside(self) -> bool
        ensures { result ≡ outside p self.entry.numbers.now }
    {
        self.first_outside() < self.numbers.len()
    }
}
