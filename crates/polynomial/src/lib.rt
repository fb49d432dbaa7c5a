// Polynomials modulo n as lists of coefficients. This crate has definitions and laws only, no code: see specs/ and proofs/.
#![tactic(auto)]
