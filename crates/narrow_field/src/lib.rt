// The field modulo p = 2^31 - 1 in u32 (document 01). `modulo` has total helpers, right for every u32; `field` and
// `inverse` have the six operations with their refusals.
#![tactic(auto)]

pub mod field;
pub mod inverse;
pub mod modulo;

// The modulus, 2^31 - 1.
pub const P: u32 = 2147483647;
