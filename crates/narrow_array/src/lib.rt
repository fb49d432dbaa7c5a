// A round's coefficients as one array value over the narrow field (document 01, "Forms to follow in each place"): k + 1 coefficients, lowest power first,
// and zeros on top. `round` takes a message and judges it, `array` multiplies and adds polynomials. The array goes in by value and comes back by value.
#![tactic(auto)]

pub mod array;
pub mod round;
