// The machine over a line's numbers: digit by digit, and comma by comma.
ghost use Rattle.std.specs.Prelude.{◌≡◌, ◌<◌};
ghost use Rattle.file_line.specs.OneLine.{meant};
ghost use Rattle.file_line.specs.Steps.{more_of, still_of, with_digit, with_comma, in_numbers};

use super::class::Class;
use super::line::Wanted;
use super::state::State;

// A number that is being read: its digits so far and their value, how many commas are still to come, and whether it may be allowed:
// each number before it is, and it fits in 64 bits. So `allowed` is no part of the value: it speaks of the numbers before this one too.
#[derive(Clone, Copy, Debug, PartialEq, Eq)]
pub(crate) struct Number {
    pub digits: u32,
    pub value: u64,
    pub commas: u32,
    pub allowed: bool,
}

impl Number {
    // A number with one digit more. One that does not fit in 64 bits is held as the greatest that does, and is not allowed.
    #[tactic(auto, unfolding(crate::specs::Steps::more_of))]
    fn more(self, b: u8) -> Number
        requires { self.digits < u32.MAX }
        ensures { result ≡ more_of self b }
    {
        let digit = u64::from(b.saturating_sub(b'0'));
        let whole = self
            .value
            .checked_mul(10)
            .and_then(|tens| tens.checked_add(digit));
        Number {
            digits: self.digits + 1,
            value: whole.unwrap_or(u64::MAX),
            allowed: self.allowed && whole.is_some(),
            ..self
        }
    }

    // Whether the numbers up to this one are allowed.
    #[tactic(auto, unfolding(crate::specs::Steps::still_of))]
    pub(crate) fn still_allowed(self, wanted: Wanted) -> bool
        ensures { result ≡ still_of wanted self }
    {
        self.allowed && wanted.low <= self.value && self.value <= wanted.high
    }

    // A digit more: not where there are as many as may be, nor after a leading 0.
    #[tactic(auto, unfolding(crate::specs::Steps::with_digit))]
    fn with_digit(self, wanted: Wanted, b: u8) -> State
        ensures { result ≡ with_digit wanted self b }
    {
        if wanted.digits <= self.digits || (self.digits != 0 && self.value == 0) {
            return State::Bad;
        }
        State::Numbers(self.more(b))
    }

    // A comma: the number before it ends, and the next one starts.
    #[tactic(auto, unfolding(crate::specs::Steps::with_comma))]
    fn with_comma(self, wanted: Wanted) -> State
        ensures { result ≡ with_comma wanted self }
    {
        if self.digits == 0 || self.commas == 0 {
            return State::Bad;
        }
        State::Numbers(Number {
            digits: 0,
            value: 0,
            commas: self.commas - 1,
            allowed: self.still_allowed(wanted),
        })
    }

    // What a byte does to a number that is being read.
    pub(crate) fn after(self, wanted: Wanted, class: Class, b: u8) -> State
        ensures { result ≡ in_numbers wanted self b (meant class) }
    {
        match class {
            Class::Digit => self.with_digit(wanted, b),
            Class::Comma => self.with_comma(wanted),
            _ => State::Bad,
        }
    }
}
