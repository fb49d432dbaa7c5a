// The checker over the narrow field (document 01): `whole` has it in one call, `without_tables` without them, `sent` what both are sent, `failure` what keeps
// either from a good end.
#![tactic(auto)]

mod failure;
mod sent;
pub mod whole;
pub mod without_tables;

pub use failure::Failure;
