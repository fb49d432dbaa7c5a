// The sumcheck protocol, what is demanded of it, and the proof that it has it, over any modulus. This crate has definitions and laws only,
// no code: see specs/ and proofs/.
#![tactic(auto)]
