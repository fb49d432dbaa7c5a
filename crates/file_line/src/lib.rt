// One line of a proof file (document 01, "Proof file"), read byte by byte. The class of a byte drives a small machine: first the line's
// word, then its numbers. No field is known here: which numbers are allowed is for the caller to say.
#![tactic(auto)]

pub mod class;
mod ending;
mod letters;
pub mod line;
mod numbers;
mod state;
