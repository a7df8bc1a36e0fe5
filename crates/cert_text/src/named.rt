//! What the words of a text name: rows, columns, cells, lemmas and literals.

ghost use Rattle.std.specs.Prelude.{◌≡◌, ◌<◌, IfSome};
ghost use Rattle.cert_text.specs.Cert.{IsWritable};
ghost use Rattle.cert_text.specs.Text.{cell_named, given_line, joined_named, lemma_named, line_named, literal_named, number_of};

use crate::cert_line::{CellNumber, LineNumber, Literal};
use crate::letters::colours_in;
use crate::words::{is_word, three_words};
use picture::{Axis, short_number_in};

// A number of one to three digits, without leading zeros.
fn number_in(bytes: &[u8]) -> Option<u16>
    ensures value { result ≡ number_of bytes.now }
    ensures small { IfSome result (λ n. n < 1000) }
{
    if matches!(bytes, [b'0', _, ..]) {
        return None;
    }
    Some(short_number_in(bytes, 3)? as u16)
}

/// The row or column that two words name, as `r 3`. None for other words.
pub fn line_named(first: &[u8], second: &[u8]) -> Option<LineNumber>
    ensures value { result ≡ line_named first.now second.now }
    ensures short { IfSome result (λ line. line.number < 1000) }
{
    let axis = match first {
        b"r" => Axis::Across,
        b"c" => Axis::Down,
        _ => return None,
    };
    let number = number_in(second)?;
    Some(LineNumber { axis, number })
}

// The row or column that a word names, as `r3`. None for other words.
pub(crate) fn joined_named(word: &[u8]) -> Option<LineNumber>
    ensures value { result ≡ joined_named word.now }
    ensures short { IfSome result (λ line. line.number < 1000) }
{
    match word {
        [] => None,
        [axis, number @ ..] => line_named(&[*axis], number),
    }
}

/// The cell that two words name, as `3 4`. None for other words.
pub fn cell_named(first: &[u8], second: &[u8]) -> Option<CellNumber>
    ensures value { result ≡ cell_named first.now second.now }
    ensures short { IfSome result (λ cell. (cell.row < 1000) × (cell.col < 1000)) }
{
    let row = number_in(first)?;
    let col = number_in(second)?;
    Some(CellNumber { row, col })
}

// The number of a lemma: one to five digits, without leading zeros.
pub(crate) fn lemma_named(word: &[u8]) -> Option<u16>
    ensures { result ≡ lemma_named word.now }
{
    if matches!(word, [b'0', _, ..]) {
        return None;
    }
    u16::try_from(short_number_in(word, 5)?).ok()
}

// The literal that three words name.
pub(crate) fn literal_named(row: &[u8], col: &[u8], letters: &[u8]) -> Option<Literal>
    ensures value { result ≡ literal_named row.now col.now letters.now }
    ensures writable { IfSome result IsWritable }
{
    let cell = cell_named(row, col)?;
    let colours = colours_in(letters)?;
    Some(Literal { cell, colours })
}

#[tactic(auto, unfolding(crate::specs::Text::given_line))]
/// The cell that a line gives, as `given 3 4`. None for other lines.
pub fn given_in(line: &[u8]) -> Option<CellNumber>
    ensures value { result ≡ given_line line.now }
    ensures short { IfSome result (λ cell. (cell.row < 1000) × (cell.col < 1000)) }
{
    let (word, first, second) = three_words(line)?;
    if !is_word(word, b"given") {
        return None;
    }
    cell_named(first, second)
}
