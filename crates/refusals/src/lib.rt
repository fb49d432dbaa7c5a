// The limits and the refusals of document 01, once for all code. What the limits mean, a refusal's number, and the order of refusals are in specs/.
#![tactic(auto)]

mod refusal;

pub use refusal::Refusal;

pub const MAX_VARS: u32 = 16;

pub const MAX_DEGREE: u32 = 3;

pub const MAX_FILE: usize = 4096;
