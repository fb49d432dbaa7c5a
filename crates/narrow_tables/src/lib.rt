// Lent tables over the narrow field (document 01): `sum` has the true sum, `value` the value of f at a point.
#![tactic(auto)]

pub mod sum;
pub mod value;
