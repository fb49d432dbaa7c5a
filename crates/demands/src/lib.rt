// The demands with the numbers put in, of the library's own answers. This crate has statements and their proofs only, no code: see specs/ and proofs/.
#![tactic(auto)]
