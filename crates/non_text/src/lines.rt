//! The lines of a text, cut off one by one. Nothing is copied.

ghost use Rattle.std.specs.Prelude.{◌≡◌, option_map};
ghost use Rattle.std.specs.Str.Lines.{strip_carriage_return};
ghost use Rattle.non_text.specs.Bytes.{past_blanks, before_blanks, trimmed, first_word, past_word};
ghost use Rattle.non_text.specs.Lines.{all_lines, is_blank_line, is_comment, lines_of, keyword_of, value_of, at_keyword};
ghost use Rattle.non_text.specs.Cut.{IsFirstOf, section_lines, lines_found};

use picture::{blank_place, is_blank, split_first, word_place};

#[tactic(auto, using(crate::proofs::BytesLemmas::fronts))]
// The bytes without the blanks at the front.
fn past_blanks(bytes: &[u8]) -> &[u8]
    ensures { result.now ≡ past_blanks bytes.now }
{
    match word_place(bytes) {
        Some(start) => &bytes[start..],
        None => &[],
    }
}

#[tactic(auto, using(crate::proofs::BytesLemmas::blanks))]
// The bytes without the blanks at the end.
fn before_blanks(bytes: &[u8]) -> &[u8]
    ensures { result.now ≡ before_blanks bytes.now }
{
    let mut rest = bytes;
    while let [front @ .., last] = rest {
        if !is_blank(*last) {
            return rest;
        }
        rest = front;
    }
    &[]
}

// The bytes without the blanks at both ends.
pub(crate) fn trim(bytes: &[u8]) -> &[u8]
    ensures { result.now ≡ trimmed bytes.now }
{
    before_blanks(past_blanks(bytes))
}

#[tactic(auto, using(crate::proofs::BytesLemmas::words))]
// The bytes before the first blank, and the rest from there on.
fn split_word(bytes: &[u8]) -> (&[u8], &[u8])
    ensures word { result.0.now ≡ first_word bytes.now }
    ensures rest { result.1.now ≡ past_word bytes.now }
{
    match blank_place(bytes) {
        Some(end) => bytes.split_at(end),
        None => (bytes, &[]),
    }
}

// The piece without a carriage return at its end.
fn without_return(piece: &[u8]) -> &[u8]
    ensures { result.now ≡ strip_carriage_return piece.now }
{
    match piece {
        [front @ .., b'\r'] => front,
        _ => piece,
    }
}

#[tactic(auto, using(crate::proofs::LinesLemmas::first_lines))]
// The first line, and the text after it.
fn first_line(text: &[u8]) -> Option<(&[u8], &[u8])>
    ensures { IsFirstOf all_lines text.now result }
{
    let (piece, behind) = split_first(text, b'\n');
    let line = without_return(piece);
    match behind {
        Some(rest) => Some((line, rest)),
        None if line.is_empty() => None,
        None => Some((line, &[])),
    }
}

#[tactic(auto, unfolding(crate::specs::Lines::is_blank_line))]
// Whether a line has nothing but blanks.
pub(crate) fn is_blank_line(line: &[u8]) -> bool
    ensures { result ≡ is_blank_line line.now }
{
    past_blanks(line).is_empty()
}

#[tactic(auto, unfolding(crate::specs::Lines::is_comment))]
// Whether the first byte after leading blanks is `#`.
fn is_comment(line: &[u8]) -> bool
    ensures { result ≡ is_comment line.now }
{
    matches!(past_blanks(line), [b'#', ..])
}

#[tactic(auto, using(crate::proofs::LinesLemmas::shown_lines))]
// The first line that is not a comment, and the text after it.
pub(crate) fn next_line(text: &[u8]) -> Option<(&[u8], &[u8])>
    ensures { IsFirstOf lines_of text.now result }
{
    let mut rest = text;
    while let Some((line, behind)) = first_line(rest) {
        if !is_comment(line) {
            return Some((line, behind));
        }
        rest = behind;
    }
    None
}

#[tactic(auto, unfolding(crate::specs::Lines::keyword_of))]
// The keyword of a line, empty if it has none.
pub(crate) fn keyword(line: &[u8]) -> &[u8]
    ensures { result.now ≡ keyword_of line.now }
{
    let start = past_blanks(line);
    match start {
        [b'a'..=b'z', ..] => split_word(start).0,
        _ => &[],
    }
}

#[tactic(auto, unfolding(crate::specs::Lines::value_of))]
// What follows the keyword of a line.
pub(crate) fn value(line: &[u8]) -> &[u8]
    ensures { result.now ≡ value_of line.now }
{
    trim(split_word(past_blanks(line)).1)
}

#[tactic(auto, using(crate::proofs::LinesLemmas::section_steps))]
// The first line of the section that a text begins with, and the text after it.
pub(crate) fn next_in_section(text: &[u8]) -> Option<(&[u8], &[u8])>
    ensures { IsFirstOf section_lines text.now result }
{
    let (line, rest) = next_line(text)?;
    keyword(line).is_empty().then_some((line, rest))
}

#[tactic(auto, using(crate::proofs::LinesLemmas::finding))]
// The first line with a keyword, and the text after it.
pub(crate) fn find<'a>(text: &'a [u8], word: &[u8]) -> Option<(&'a [u8], &'a [u8])>
    ensures { option_map lines_found result ≡ at_keyword word.now (lines_of text.now) }
{
    let mut rest = text;
    while let Some((line, behind)) = next_line(rest) {
        if keyword(line) == word {
            return Some((line, behind));
        }
        rest = behind;
    }
    None
}
