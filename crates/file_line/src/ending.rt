// How a line ends with its line end.
ghost use Rattle.std.specs.Prelude.{◌≡◌};
ghost use Rattle.file_line.specs.OneLine.{said};
ghost use Rattle.file_line.specs.Steps.{closed_number, closed_of};

use super::line::{Fault, Found, Wanted};
use super::numbers::Number;
use super::state::State;
use refusals::Refusal;

impl Number {
    // A line end after a number.
    #[tactic(auto, unfolding(crate::specs::Steps::closed_number))]
    fn closed(self, wanted: Wanted, next: usize) -> Result<Found, Fault>
        ensures { said result ≡ closed_number wanted self next }
    {
        if self.digits == 0 || self.commas != 0 {
            return Err(wanted.fault(Refusal::BadLine));
        }
        if !self.still_allowed(wanted) {
            return Err(wanted.fault(Refusal::NotAllowed));
        }
        Ok(Found {
            last: self.value,
            next,
        })
    }
}

impl State {
    // A line end.
    pub(crate) fn closed(self, wanted: Wanted, next: usize) -> Result<Found, Fault>
        ensures { said result ≡ closed_of wanted self next }
    {
        match self {
            State::Numbers(number) => number.closed(wanted, next),
            _ => Err(wanted.fault(Refusal::BadLine)),
        }
    }
}
