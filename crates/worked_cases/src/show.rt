// Printing answers, each on a line of its own.
use narrow_checker::Failure;
use std::{fmt, io};

// What the checker and closing answer, in words.
#[derive(Clone, Copy)]
pub struct Verdict(pub Result<(), Failure>);

impl fmt::Display for Verdict {
    fn fmt<W: fmt::Write>(&self, f: &mut fmt::Formatter<W>) -> fmt::Result {
        match self.0 {
            Ok(()) => write!(f, "accepted"),
            Err(Failure::Rejected(round)) => write!(f, "rejected, round {round}"),
            Err(Failure::Refused(refusal)) => write!(f, "refused, {}", u32::from(refusal)),
        }
    }
}

// An answer.
pub fn line(rt: &impl Print, answer: impl fmt::Display + Drop) -> io::Result<()> {
    println!(rt; " {answer}")
}

// Each number of a list.
pub fn list(rt: &impl Print, numbers: &[u32]) -> io::Result<()> {
    for x in numbers {
        line(rt, x)?;
    }
    Ok(())
}
