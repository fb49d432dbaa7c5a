// The machine over a line's word: letter by letter, and the `=` after it.
ghost use Rattle.std.specs.Prelude.{◌≡◌};
ghost use Rattle.file_line.specs.OneLine.{letters, meant};
ghost use Rattle.file_line.specs.Steps.{with_letter, opened, in_word};

use super::class::Class;
use super::line::Wanted;
use super::numbers::Number;
use super::state::State;

// A letter of the line's word.
#[tactic(auto, unfolding(crate::specs::Steps::with_letter))]
fn with_letter(place: usize, wanted: Wanted, b: u8) -> State
    ensures { result ≡ with_letter (letters wanted.word) place b }
{
    match wanted.word.letters().get(place) {
        Some(&letter) if letter == b => State::Letters(place + 1),
        _ => State::Bad,
    }
}

// The `=` after the line's word.
#[tactic(auto, unfolding(crate::specs::Steps::opened))]
fn open(place: usize, wanted: Wanted) -> State
    ensures { result ≡ opened wanted (letters wanted.word) place }
{
    if place == wanted.word.letters().len() {
        State::Numbers(Number {
            digits: 0,
            value: 0,
            commas: wanted.commas,
            allowed: true,
        })
    } else {
        State::Bad
    }
}

// What a byte does to a word that is being read.
pub(crate) fn in_word(place: usize, wanted: Wanted, class: Class, b: u8) -> State
    ensures { result ≡ in_word wanted (letters wanted.word) place b (meant class) }
{
    match class {
        Class::Letter => with_letter(place, wanted, b),
        Class::Equals => open(place, wanted),
        _ => State::Bad,
    }
}
