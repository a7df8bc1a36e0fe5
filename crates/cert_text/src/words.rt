//! The lines, words and numbers of a text. Nothing is copied.

ghost use Rattle.std.specs.Prelude.{◌≡◌, ◌<◌, length, IfSome, option_map};
ghost use Rattle.cert_text.specs.Text.{IsCut, IsFirstLine, is_word, three_of, three_seen, words_of};

use picture::split_first;

#[tactic(auto, using(crate::proofs::WordLemmas::first_lines))]
/// The first line, and the text after it. None for an empty text.
pub fn first_line(text: &[u8]) -> Option<(&[u8], &[u8])>
    ensures { IsFirstLine text.now result }
{
    let (piece, behind) = split_first(text, b'\n');
    match behind {
        Some(rest) => Some((piece, rest)),
        None if piece.is_empty() => None,
        None => Some((piece, &[])),
    }
}

/// Whether these bytes are exactly this word.
pub fn is_word(bytes: &[u8], word: &[u8]) -> bool
    ensures { result ≡ is_word bytes.now word.now }
{
    bytes == word
}

/// The first word, and what follows the space after it. None without a space.
pub fn cut_word(bytes: &[u8]) -> Option<(&[u8], &[u8])>
    ensures cut { IsCut bytes.now result }
    ensures shorter { IfSome result (λ cut. length cut.1.now < length bytes.now) }
{
    let (word, behind) = split_first(bytes, b' ');
    Some((word, behind?))
}

// The words of a line that has exactly three.
pub(crate) fn three_words(line: &[u8]) -> Option<(&[u8], &[u8], &[u8])>
    ensures { option_map three_seen result ≡ three_of (words_of line.now) }
{
    let (word, behind) = cut_word(line)?;
    let (first, second) = cut_word(behind)?;
    match cut_word(second) {
        None => Some((word, first, second)),
        Some(_) => None,
    }
}
