// The prover over the narrow field (document 01, "What is offered"). `folding` says how tables lie while they are folded, `fold` has the folding of tables
// by a challenge, `round` a round's polynomial, `memory` copying, `prove` the entry.
#![tactic(auto)]

pub mod fold;
mod folding;
pub mod memory;
pub mod prove;
pub mod round;
