ghost use Rattle.std.specs.Prelude.{◌≡◌, Some};
ghost use Rattle.std.specs.Option.{option_to_list};
ghost use Rattle.image.specs.Refusals.{refusal_number, refusal_values, refusal_told};
ghost use Rattle.image.specs.declared.refusal.Refusal.TheVariants as refusal;

use crate::kind::UnknownKind;
use std::error::Error;
use std::fmt;

/// Why bytes are not an image.
#[derive(Clone, Copy, PartialEq, Eq, Debug)]
pub enum Refusal {
    /// The image is too short or too long.
    Length,
    /// The header number at this offset is out of range.
    Header(usize),
    /// The pair of this number is out of order, or its section ends past the image.
    Pair(usize),
    /// The section of the pair of this number has a wrong length.
    Section(usize),
    /// The value at this offset is not allowed.
    Value(usize),
}

impl Refusal {
    /// The number by which the refusal is known. It does not tell the whole of it, so there is no `From`.
    pub fn number(self) -> u8
        ensures { result ≡ refusal_number self }
    {
        match self {
            Refusal::Length => 1,
            Refusal::Header(_) => 2,
            Refusal::Pair(_) => 3,
            Refusal::Section(_) => 4,
            Refusal::Value(_) => 5,
        }
    }

    /// The offset or pair told beside the number, where there is one.
    pub fn value(self) -> Option<usize>
        ensures { option_to_list result ≡ refusal_values self }
    {
        match self {
            Refusal::Length => None,
            Refusal::Header(at) | Refusal::Value(at) => Some(at),
            Refusal::Pair(pair) | Refusal::Section(pair) => Some(pair),
        }
    }
}

impl From<UnknownKind> for Refusal {
    ghost from_gives = { λ _ r. r ≡ refusal.Header 0 };

    // The kind is the first number of the header.
    fn from(_: UnknownKind) -> Refusal {
        Refusal::Header(0)
    }
}

/// The number, and after a space the value where there is one.
impl fmt::Display for Refusal {
    ghost output = { λ e. Some (refusal_told e) };

    fn fmt<W: fmt::Write>(&self, f: &mut fmt::Formatter<W>) -> fmt::Result {
        match self.value() {
            Some(value) => write!(f, "{} {value}", self.number()),
            None => write!(f, "{}", self.number()),
        }
    }
}

impl Error for Refusal {}
