// The sums done by hand of document 01, P1 to P12, as one table. This crate has definitions and one law only, no code: see specs/ and proofs/.
#![tactic(auto)]
