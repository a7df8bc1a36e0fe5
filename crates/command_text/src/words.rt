//! The words of a line. Nothing is copied.

ghost use Rattle.command_text.specs.Words.{IsFirstWord};

use picture::{blank_place, word_place};

// The first word, and what follows it.
pub(crate) fn next_word(line: &[u8]) -> Option<(&[u8], &[u8])>
    ensures { IsFirstWord line.now result }
{
    let start = word_place(line)?;
    let rest = &line[start..];
    match blank_place(rest) {
        Some(end) => Some((&rest[..end], &rest[end + 1..])),
        None => Some((rest, &[])),
    }
}
