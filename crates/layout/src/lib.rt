// The layout of proof files. This crate has definitions and laws only, no code: see specs/ and proofs/.
#![tactic(auto)]
