// The second pass: over the rounds of a file that is known to be good, it writes the coefficients into the lent list.
ghost use Rattle.std.specs.Prelude.{◌≡◌, length, take};
ghost use Rattle.layout.specs.Bytes.{digit};
ghost use Rattle.narrow_file.specs.Passes.{carried, collect, put};

use file_line::class::{Class, class_of};

// The value with one digit more, in 32 bits.
fn with_digit(value: u32, b: u8) -> u32
    ensures { result ≡ carried value b digit }
{
    value
        .wrapping_mul(10)
        .wrapping_add(u32::from(b.saturating_sub(b'0')))
}

// Writes the first numbers that stand in the rounds, as many as there is room for.
#[tactic(auto, using(crate::proofs::Pour::pouring))]
pub(crate) fn fill(rounds: &[u8], messages: &mut [u32])
    ensures { messages.new ≡ put (take (length messages.old) (collect 0 rounds.now)) messages.old }
{
    // Counted by hand: a place is filled only where a number ends.
    let mut filled = 0;
    let mut value = 0;
    for &b in rounds {
        match class_of(b) {
            Class::Digit => value = with_digit(value, b),
            Class::Comma | Class::LineEnd => {
                if messages.len() <= filled {
                    return;
                }
                messages[filled] = value;
                filled += 1;
                value = 0;
            }
            _ => {}
        }
    }
}
