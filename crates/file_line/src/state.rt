// How far a line is read, and the machine's step: what one byte more does to it.
ghost use Rattle.std.specs.Prelude.{◌≡◌};
ghost use Rattle.file_line.specs.OneLine.{letters, meant};
ghost use Rattle.file_line.specs.Steps.{step_of};

use super::class::Class;
use super::letters;
use super::line::Wanted;
use super::numbers::Number;

// So many letters of the line's word; its numbers; or the line is not of its form.
#[derive(Clone, Copy, Debug, PartialEq, Eq)]
pub(crate) enum State {
    Letters(usize),
    Numbers(Number),
    Bad,
}

impl State {
    // What a byte of a class does to a line that is being read. Byte and class go side by side through the machine: the class is worked out once a byte,
    // and a struct of the two would say no more.
    pub(crate) fn step(self, wanted: Wanted, class: Class, b: u8) -> State
        ensures { result ≡ step_of wanted (letters wanted.word) b (meant class) self }
    {
        match self {
            State::Letters(place) => letters::in_word(place, wanted, class, b),
            State::Numbers(number) => number.after(wanted, class, b),
            State::Bad => State::Bad,
        }
    }
}
