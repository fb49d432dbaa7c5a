// The reader of proof files over the narrow field (document 01, "Proof file"). A first pass judges every line and writes nothing;
// a second pass, over the rounds of a file that is known to be good, writes the coefficients.
#![tactic(auto)]

mod fill;
mod lines;

ghost use Rattle.std.specs.Prelude.{◌≡◌, ◌+◌, ◌*◌, length};
ghost use Rattle.narrow_file.specs.Narrow.{said, told, read_answer, after};

pub use file_line::line::Fault;
use refusals::Refusal;

// What a file says before its rounds.
#[derive(Clone, Copy, Debug, PartialEq, Eq)]
pub struct Head {
    pub vars: u32,
    pub degree: u32,
    pub claim: u32,
}

impl Head {
    // How many coefficients the rounds of a file have, as narrow_lent's `messages_length` says of lent ones: the reader stands on no crate of the
    // protocol. A `usize` has no `From<u32>`.
    fn places(self) -> usize
        ensures { result ≡ self.vars * (self.degree + 1) }
    {
        self.vars as usize * (self.degree as usize + 1)
    }
}

// Reads a proof file, and puts its coefficients into the first places of the lent list. Refusals 9 and 4 are in line 0.
#[tactic(auto, using(crate::proofs::Left::left_in), unfolding(crate::specs::Narrow::read_answer))]
pub fn read(bytes: &[u8], messages: &mut [u32]) -> Result<Head, Fault>
    ensures result_value { said result ≡ told (read_answer bytes.now (length messages.old)) }
    ensures messages_after { messages.new ≡ after (read_answer bytes.now (length messages.old)) messages.old }
{
    let judged = lines::judge(bytes)?;
    let places = judged.head.places();
    if messages.len() < places {
        return Err(Fault {
            refusal: Refusal::TooShort,
            line: 0,
        });
    }
    fill::fill(judged.rounds, &mut messages[..places]);
    Ok(judged.head)
}
