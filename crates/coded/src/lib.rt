// Answers in numbers, as they cross to other languages, since C takes neither enums with values nor results: the structs, and in `code` how each answer
// of the library is converted to one of them.
#![tactic(auto)]

pub mod code;

// An answer in numbers. kind 0: given, done, accepted or reached, with the value where there is one; 1: rejected, number is the round; 2: refused,
// number is the refusal, line its line where it has one.
#[repr(C)]
#[derive(Clone, Copy)]
pub struct Answer {
    pub kind: u32,
    pub number: u32,
    pub line: u32,
    pub value: u32,
}

// The checker's state, as C has it. Any number but 0 is a rejected mark.
#[repr(C)]
#[derive(Clone, Copy)]
pub struct State {
    pub vars: u32,
    pub degree: u32,
    pub taken: u32,
    pub claim: u32,
    pub rejected: u32,
}

// What a call on a state hands back.
#[repr(C)]
#[derive(Clone, Copy)]
pub struct Stepped {
    pub state: State,
    pub answer: Answer,
}

// A file's head, or a refusal with its line.
#[repr(C)]
#[derive(Clone, Copy)]
pub struct File {
    pub kind: u32,
    pub number: u32,
    pub line: u32,
    pub vars: u32,
    pub degree: u32,
    pub claim: u32,
}

// A part of the caller's list.
#[repr(C)]
#[derive(Clone, Copy)]
pub struct Part {
    pub start: usize,
    pub length: usize,
}
