// What is lent to an entry over the narrow field (document 01): `lengths` says how long its lists must be, `judge` turns it down, `tables` has the
// tables of a list of the right length, `prover` judges all that the prover is lent.
// vars and degree stay two numbers all through: every entry takes any two, and a pair made of them only to be taken apart again is no plainer.
#![tactic(auto)]

pub mod judge;
pub mod lengths;
pub mod prover;
pub mod tables;
