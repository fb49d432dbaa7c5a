// Arithmetic modulo n, and primes. This crate has definitions and laws only, no code: see specs/ and proofs/.
#![tactic(auto)]
