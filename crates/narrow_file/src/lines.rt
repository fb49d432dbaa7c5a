// The first pass: every line of a file in order. It writes nothing, and takes no count of the header for what the file has.
ghost use Rattle.std.specs.Prelude.{◌≡◌, ◌≤◌, IfOk};
ghost use Rattle.refusals.specs.Limits.{max_vars};
ghost use Rattle.layout.specs.Line.{line_at};
ghost use Rattle.layout.specs.Reading.{reading, lines_at, round_line};
ghost use Rattle.file_line.specs.OneLine.{line_wanted};
ghost use Rattle.narrow_file.specs.Narrow.{narrow};
ghost use Rattle.narrow_file.specs.Passes.{one_number, lasts, said_line, said_rounds, bare, said_judged};

use super::{Fault, Head};
use file_line::line::{Wanted, Word, line_at};
use narrow_field::P;
use refusals::{MAX_DEGREE, MAX_FILE, MAX_VARS, Refusal};

// What the first pass finds: the file's head, and the bytes from its first round on.
#[derive(Clone, Copy, Debug)]
pub(crate) struct Judged<'a> {
    pub head: Head,
    pub rounds: &'a [u8],
}

// The edition.
const EDITION: u32 = 1;

// The most digits of a number.
const DIGITS: u32 = 10;

// Reads the first line: its last number, and the bytes after it.
fn one_line(bytes: &[u8], wanted: Wanted) -> Result<(u64, &[u8]), Fault>
    ensures found { lasts (line_at wanted.line (line_wanted wanted) bytes.now) ≡ said_line result }
    ensures at_most { IfOk result (λ taken. taken.0 ≤ wanted.high) }
{
    let found = line_at(bytes, 0, wanted)?;
    Ok((found.last, &bytes[found.next..]))
}

// Reads a line with one number, from the least to the greatest that is allowed.
#[tactic(auto, using(crate::proofs::Chain::one_last))]
fn number(bytes: &[u8], line: u32, word: Word, low: u32, high: u32) -> Result<(u32, &[u8]), Fault>
    ensures found { line_at line (line_wanted (one_number word line low high)) bytes.now ≡ said_line result }
    ensures at_most { IfOk result (λ taken. taken.0 ≤ high) }
{
    let wanted = Wanted {
        word,
        line,
        commas: 0,
        digits: DIGITS,
        low: u64::from(low),
        high: u64::from(high),
    };
    let (last, rest) = one_line(bytes, wanted)?;
    // It fits, being at most `high`; `try_from` would want an answer for a number that does not come.
    Ok((last as u32, rest))
}

// Reads the rounds, each on a line of its own: the bytes after them.
#[tactic(auto, using(crate::proofs::Chain::rounds))]
fn after_rounds(bytes: &[u8], vars: u32, degree: u32) -> Result<&[u8], Fault>
    requires { vars ≤ max_vars }
    ensures { bare (lines_at 6 vars (round_line narrow degree) bytes.now) ≡ said_rounds result }
{
    let mut rest = bytes;
    for line in 6..vars + 6 {
        let wanted = Wanted {
            word: Word::Round,
            line,
            commas: degree,
            digits: DIGITS,
            low: 0,
            high: u64::from(P - 1),
        };
        let (_, after) = one_line(rest, wanted)?;
        rest = after;
    }
    Ok(rest)
}

// Judges a whole file.
#[tactic(auto, using(crate::proofs::Chain::judging))]
pub(crate) fn judge(bytes: &[u8]) -> Result<Judged<'_>, Fault>
    ensures { said_judged result ≡ reading narrow bytes.now }
{
    if MAX_FILE < bytes.len() {
        return Err(Fault {
            refusal: Refusal::FileTooLong,
            line: 0,
        });
    }
    let (_, rest) = number(bytes, 1, Word::Sumproof, EDITION, EDITION)?;
    let (_, rest) = number(rest, 2, Word::Field, P, P)?;
    let (vars, rest) = number(rest, 3, Word::Vars, 0, MAX_VARS)?;
    let (degree, rest) = number(rest, 4, Word::Degree, 1, MAX_DEGREE)?;
    let (claim, rounds) = number(rest, 5, Word::Claim, 0, P - 1)?;
    let rest = after_rounds(rounds, vars, degree)?;
    let (_, rest) = number(rest, vars + 6, Word::End, vars, vars)?;
    if !rest.is_empty() {
        return Err(Fault {
            refusal: Refusal::FileGoesOn,
            line: vars + 7,
        });
    }
    let head = Head {
        vars,
        degree,
        claim,
    };
    Ok(Judged { head, rounds })
}
