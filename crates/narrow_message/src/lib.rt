// A round's message in the caller's list over the narrow field (document 01, "What is offered").
#![tactic(auto)]

pub mod part;
