// The library's face for other languages: every entry under a plain C name, its answer as a small struct of `coded`. Nothing is done here but passing
// on; each promise cites the definition that the entry below has. client/include/sendurafi.h says the same in C.
#![tactic(auto)]

pub mod checker;
pub mod field;
pub mod reader;
pub mod tables;
