//! The keywords of a text, checked from the top.

ghost use Rattle.std.specs.Prelude.{◌≡◌, []};
ghost use Rattle.non_text.specs.Lines.{has_keyword, lines_of};
ghost use Rattle.non_text.specs.Puzzle.{size_in, first_fault, size_behind};
ghost use Rattle.non_text.specs.Seen.{is_seen, seen_with, fault_below};

use crate::clue_line::number;
use crate::fault::NonFault;
use crate::lines::{find, keyword, next_line, value};
use picture::MAX_SIDE;

// Which keywords the lines above have.
#[derive(Clone, Copy, Default)]
struct Seen {
    width: bool,
    height: bool,
    rows: bool,
    columns: bool,
}

// Whether a line has this keyword.
fn has_keyword(line: &[u8], word: &[u8]) -> bool
    ensures { result ≡ has_keyword word.now line.now }
{
    keyword(line) == word
}

// Whether a line has a keyword that a line above has.
fn is_seen(seen: Seen, line: &[u8]) -> bool
    ensures { result ≡ is_seen seen line.now }
{
    let width = has_keyword(line, b"width");
    let height = has_keyword(line, b"height");
    let rows = has_keyword(line, b"rows");
    let columns = has_keyword(line, b"columns");
    (width & seen.width) | (height & seen.height) | ((rows & seen.rows) | (columns & seen.columns))
}

// The keywords with that of one more line.
fn seen_with(seen: Seen, line: &[u8]) -> Seen
    ensures { result ≡ seen_with seen line.now }
{
    Seen {
        width: has_keyword(line, b"width") | seen.width,
        height: has_keyword(line, b"height") | seen.height,
        rows: has_keyword(line, b"rows") | seen.rows,
        columns: has_keyword(line, b"columns") | seen.columns,
    }
}

#[tactic(auto, using(crate::proofs::SeenLemmas::sizes))]
// The size that a value gives, from 1 to 120.
fn size_in(value: &[u8]) -> Option<u8>
    ensures { result ≡ size_in value.now }
{
    match number(value)? {
        size @ 1..=MAX_SIDE => Some(size),
        _ => None,
    }
}

#[tactic(auto, unfolding(crate::specs::Seen::fault_below))]
// The error of a line below those keywords.
fn fault_below(seen: Seen, line: &[u8]) -> Option<NonFault>
    ensures { result ≡ fault_below seen line.now }
{
    let is_size = has_keyword(line, b"width") | has_keyword(line, b"height");
    if is_seen(seen, line) {
        Some(NonFault::Repeated)
    } else if is_size && size_in(value(line)).is_none() {
        Some(NonFault::BadSize)
    } else {
        None
    }
}

#[tactic(auto, using(crate::proofs::SeenLemmas::faults))]
// The error of the first bad line of a text.
pub(crate) fn first_fault(text: &[u8]) -> Option<NonFault>
    ensures { result ≡ first_fault [] (lines_of text.now) }
{
    let mut seen = Seen::default();
    let mut rest = text;
    while let Some((line, behind)) = next_line(rest) {
        if let Some(fault) = fault_below(seen, line) {
            return Some(fault);
        }
        seen = seen_with(seen, line);
        rest = behind;
    }
    None
}

#[tactic(auto, unfolding(crate::specs::Puzzle::size_behind))]
// The size after a keyword.
pub(crate) fn size_behind(text: &[u8], word: &[u8]) -> Option<u8>
    ensures { result ≡ size_behind word.now (lines_of text.now) }
{
    let (line, _) = find(text, word)?;
    size_in(value(line))
}
