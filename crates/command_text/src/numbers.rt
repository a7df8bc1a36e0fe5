//! The words of a command that stand for numbers and colours.

ghost use Rattle.std.specs.Prelude.{◌≡◌, ◌<◌, IfSome};
ghost use Rattle.command_text.specs.Numbers.{colour_of, number_of, place_named, sample_of};

use picture::short_number_in;

// The most digits of a number.
const MOST_DIGITS: usize = 5;

#[tactic(auto, unfolding(crate::specs::Numbers::number_of))]
// A number of one to five digits.
pub(crate) fn number_in(word: &[u8]) -> Option<u32>
    ensures value { result ≡ number_of word.now }
    ensures small { IfSome result (λ n. n < 100000) }
{
    short_number_in(word, MOST_DIGITS)
}

// A place: a number from 1 to 256, returned as counted from 0.
pub(crate) fn place_in(word: &[u8]) -> Option<u8>
    ensures { result ≡ place_named word.now }
{
    u8::try_from(number_in(word)?.checked_sub(1)?).ok()
}

/// A sample of a colour: one to five digits, with a value up to 65535. Leading zeros are lawful. None for any
/// other word.
pub fn sample_in(word: &[u8]) -> Option<u16>
    ensures { result ≡ sample_of word.now }
{
    u16::try_from(number_in(word)?).ok()
}

// The number of a colour: `.` is the background, and `a` to `o` are 1 to 15.
pub(crate) fn colour_in(word: &[u8]) -> Option<u8>
    ensures value { result ≡ colour_of word.now }
    ensures small { IfSome result (λ k. k < 16) }
{
    match word {
        [b'.'] => Some(0),
        [letter @ b'a'..=b'o'] => Some(*letter - (b'a' - 1)),
        _ => None,
    }
}
