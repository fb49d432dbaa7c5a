// A line at a place of the bytes: what is asked for, what is found, and the reading of it. Every function that is public takes every input.
ghost use Rattle.std.specs.Prelude.{◌≡◌, true, length, drop};
ghost use Rattle.layout.specs.Bytes.{is_letter};
ghost use Rattle.layout.specs.Number.{all};
ghost use Rattle.layout.specs.Line.{line_at};
ghost use Rattle.file_line.specs.OneLine.{letters, said, brief, line_wanted};

use super::class::{Class, class_of};
use super::state::State;
use refusals::Refusal;

// The words that a line may begin with.
#[derive(Clone, Copy, Debug, PartialEq, Eq)]
pub enum Word {
    Sumproof,
    Field,
    Vars,
    Degree,
    Claim,
    Round,
    End,
}

impl Word {
    // The word's letters.
    pub(crate) fn letters(self) -> &'static [u8]
        ensures same { result.now ≡ letters self }
        ensures each { all is_letter result.now ≡ true }
    {
        match self {
            Word::Sumproof => b"sumproof",
            Word::Field => b"field",
            Word::Vars => b"vars",
            Word::Degree => b"degree",
            Word::Claim => b"claim",
            Word::Round => b"round",
            Word::End => b"end",
        }
    }
}

// What a line must be: its word, its number in the file, how many commas it has, the most digits of a number, and the least and the
// greatest number allowed.
#[derive(Clone, Copy, Debug, PartialEq, Eq)]
pub struct Wanted {
    pub word: Word,
    pub line: u32,
    pub commas: u32,
    pub digits: u32,
    pub low: u64,
    pub high: u64,
}

impl Wanted {
    // A refusal in this line.
    pub(crate) fn fault(self, refusal: Refusal) -> Fault
        ensures { result ≡ record { refusal = refusal; line = self.line } }
    {
        Fault {
            refusal,
            line: self.line,
        }
    }
}

// What is found where a line is expected: its last number, and where the next line starts.
#[derive(Clone, Copy, Debug, PartialEq, Eq)]
pub struct Found {
    pub last: u64,
    pub next: usize,
}

// Why bytes are refused, and in which line; line 0 where it is in none.
#[derive(Clone, Copy, Debug, PartialEq, Eq)]
pub struct Fault {
    pub refusal: Refusal,
    pub line: u32,
}

// Reads the line that starts at a place.
#[tactic(auto, using(crate::proofs::Runs::runs))]
pub fn line_at(bytes: &[u8], at: usize, wanted: Wanted) -> Result<Found, Fault>
    ensures { said result ≡ brief (length bytes.now) (line_at wanted.line (line_wanted wanted) (drop at bytes.now)) }
{
    if bytes.len() <= at {
        return Err(wanted.fault(Refusal::FileEnds));
    }
    let rest = &bytes[at..];
    let mut state = State::Letters(0);
    for (i, &b) in rest.iter().enumerate() {
        match class_of(b) {
            Class::LineEnd => return state.closed(wanted, at + i + 1),
            class => state = state.step(wanted, class, b),
        }
    }
    Err(wanted.fault(Refusal::BadLine))
}
