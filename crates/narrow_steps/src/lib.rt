// The checker in steps over the narrow field (document 01): `state` has the state and its opening, `step` a round, `close` the end.
#![tactic(auto)]

pub mod close;
pub mod state;
pub mod step;
