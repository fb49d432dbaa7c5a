// The class of a byte (document 01, "Proof file").
ghost use Rattle.std.specs.Prelude.{◌≡◌};
ghost use Rattle.layout.specs.Bytes.{class_of};
ghost use Rattle.file_line.specs.OneLine.{meant};

// The classes, in the document's order.
#[derive(Clone, Copy, Debug, PartialEq, Eq)]
pub enum Class {
    Digit,
    Comma,
    Equals,
    LineEnd,
    Letter,
    Other,
}

// Sorts every byte into its class.
#[tactic(auto, using(crate::proofs::Classes::class_by_tests))]
pub fn class_of(b: u8) -> Class
    ensures { meant result ≡ class_of b }
{
    match b {
        b'0'..=b'9' => Class::Digit,
        b',' => Class::Comma,
        b'=' => Class::Equals,
        b'\n' => Class::LineEnd,
        b'a'..=b'z' => Class::Letter,
        _ => Class::Other,
    }
}
