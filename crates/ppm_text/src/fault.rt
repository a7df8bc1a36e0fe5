//! What can be wrong with a P3 text, with names and byte offsets.

ghost use Rattle.std.specs.Prelude.{◌≡◌};
ghost use Rattle.ppm_text.specs.Faults.{name_of, place_of};
ghost use Rattle.ppm_text.specs.declared.fault.PpmFault.TheVariants.{Memory};

use std::alloc::AllocError;
use thiserror::Error;

/// What is wrong with a P3 text: the first error that is met when it is read from the front. The numbers are byte
/// offsets, from 0.
#[derive(Clone, Copy, Debug, PartialEq, Eq, Error)]
pub enum PpmFault {
    /// The text doesn't begin with `P3`, or something other than white space or a comment follows it.
    #[error("not a P3 text")]
    NotP3(usize),
    /// The token isn't digits alone.
    #[error("byte {0}: not a number")]
    BadNumber(usize),
    /// The text ends where a number is expected.
    #[error("byte {0}: the text ends too early")]
    Truncated(usize),
    /// The maxval is not from 1 to 65535.
    #[error("byte {0}: the maxval is not from 1 to 65535")]
    BadMaxval(usize),
    /// The width or the height is 0.
    #[error("byte {0}: the size is 0")]
    EmptySize(usize),
    /// The width or the height is above 120.
    #[error("byte {0}: the size is above 120")]
    TooLarge(usize),
    /// A sample is above the maxval; if the byte is that of the maxval, a sample of the background that was passed.
    #[error("byte {0}: a sample is above the maxval")]
    SampleOver(usize),
    /// The triple that begins here would be the seventeenth colour.
    #[error("byte {0}: more than 16 colours")]
    TooManyColours(usize),
    /// A token follows the last sample.
    #[error("byte {0}: a token after the last sample")]
    TrailingToken(usize),
    /// Memory ran out.
    #[error("out of memory")]
    Memory,
}

/// The result of a part of the reader.
pub(crate) type Read<T> = Result<T, PpmFault>;

impl PpmFault {
    /// The name of the error's variant.
    pub fn name(&self) -> &'static str
        ensures { result.now ≡ name_of self.now }
    {
        self.told().0
    }

    /// The byte offset of the error, or `None` if memory ran out.
    pub fn place(&self) -> Option<usize>
        ensures { result ≡ place_of self.now }
    {
        self.told().1
    }

    // The name, and the place.
    fn told(&self) -> (&'static str, Option<usize>)
        ensures name { result.0.now ≡ name_of self.now }
        ensures place { result.1 ≡ place_of self.now }
    {
        match *self {
            PpmFault::NotP3(place) => ("NotP3", Some(place)),
            PpmFault::BadNumber(place) => ("BadNumber", Some(place)),
            PpmFault::Truncated(place) => ("Truncated", Some(place)),
            PpmFault::BadMaxval(place) => ("BadMaxval", Some(place)),
            PpmFault::EmptySize(place) => ("EmptySize", Some(place)),
            PpmFault::TooLarge(place) => ("TooLarge", Some(place)),
            PpmFault::SampleOver(place) => ("SampleOver", Some(place)),
            PpmFault::TooManyColours(place) => ("TooManyColours", Some(place)),
            PpmFault::TrailingToken(place) => ("TrailingToken", Some(place)),
            PpmFault::Memory => ("Memory", None),
        }
    }
}

impl From<AllocError> for PpmFault {
    ghost from_gives = { λ _ e. e ≡ Memory };

    fn from(_e: AllocError) -> PpmFault {
        PpmFault::Memory
    }
}
