//! The report of a bench.

ghost use Rattle.std.specs.Prelude.{◌≡◌, ◌<◌, ◌≤◌, ◌+◌, ◌++◌, ◌==◌, codes, count_by, count_ones, length, nat_lt, OnOk};
ghost use Rattle.picture.specs.Rows.{cell_at, row_at, width_of};
ghost use Rattle.picture.specs.Writers.{number_text};
ghost use Rattle.edits.specs.Design.{design_of};
ghost use Rattle.report_text.specs.Room.{TakesRoom};
ghost use Rattle.report_text.specs.Report.{audit_text, colour_line, colour_lines, colours_text, document_text, ending_text, givens_in, open_cells, row_givens, shown_given};

use crate::clue_text::push_clues;
use crate::numbers::push_number;
use crate::shown::{letter_of, push_map, push_picture};
use clues::ClueBook;
use line_facts::Facts;
use picture::{Document, Palette, Picture, Rgb};
use std::alloc::AllocError;

/// The largest size of the ending of a report, in bytes: a word of nine bytes, two numbers of twenty digits, and the
/// text around them.
pub const ENDING_ROOM: usize = 68;

#[tactic(auto, using(std::proofs::lemmas::List::append_assoc))]
/// Appends a report without its ending to a text: size, palette, picture, givens, clues, map, and how many cells are
/// open. Where memory is refused, a part may have been appended.
pub fn push_front(
    text: &mut Vec<u8>,
    document: &Document,
    clues: &ClueBook,
    map: &Facts,
) -> Result<(), AllocError>
    ensures { OnOk result (text.new.items
        ≡ text.old.items ++ (document_text (design_of document.now)
        ++ audit_text clues.now map.now)) }
{
    push_document(text, document)?;
    push_audit(text, clues, map)
}

#[tactic(auto, using(crate::proofs::RoomLemmas::long_numbers))]
// A number, and the byte after it: a space, or the end of the line.
fn push_before(text: &mut Vec<u8>, number: usize, end: u8) -> Result<(), AllocError>
    ensures items { OnOk result (text.new.items ≡ text.old.items ++ number_text number end) }
    ensures room { TakesRoom text.old text.new 21 result }
{
    push_number(text, number)?;
    Ok(text.push(end)?)
}

#[tactic(auto, using(std::proofs::lemmas::List::append_assoc))]
fn push_document(text: &mut Vec<u8>, document: &Document) -> Result<(), AllocError>
    ensures { OnOk result (text.new.items
        ≡ text.old.items ++ document_text (design_of document.now)) }
{
    push_size(text, &document.picture)?;
    push_colours(text, &document.palette)?;
    text.extend_from_slice(b"picture\n")?;
    push_picture(text, &document.picture)?;
    push_givens(text, document)
}

#[tactic(auto, using(std::proofs::lemmas::List::append_assoc))]
fn push_size(text: &mut Vec<u8>, picture: &Picture) -> Result<(), AllocError>
    ensures { OnOk result (text.new.items ≡ text.old.items ++ (codes "size "
        ++ (number_text (length picture.now) 32 ++ number_text (width_of picture.now) 10))) }
{
    text.extend_from_slice(b"size ")?;
    push_before(text, usize::from(picture.height()), b' ')?;
    push_before(text, usize::from(picture.width()), b'\n')
}

#[tactic(auto, using(std::proofs::lemmas::List::append_assoc))]
// How many colours there are, the largest sample, and a line for each colour.
fn push_colours(text: &mut Vec<u8>, palette: &Palette) -> Result<(), AllocError>
    ensures { OnOk result (text.new.items ≡ text.old.items ++ colours_text palette.now) }
{
    text.extend_from_slice(b"colours ")?;
    push_before(text, usize::from(palette.len()), b' ')?;
    text.extend_from_slice(b"maxval ")?;
    push_before(text, usize::from(palette.maxval()), b'\n')?;
    push_triples(text, palette)
}

fn push_triples(text: &mut Vec<u8>, palette: &Palette) -> Result<(), AllocError>
    ensures { OnOk result (text.new.items
        ≡ text.old.items ++ colour_lines palette.now.triples (length palette.now.triples)) }
{
    for number in 0..palette.len() {
        push_colour(text, number, palette.rgb(number))?;
    }
    Ok(())
}

#[tactic(auto, using(std::proofs::lemmas::List::append_assoc))]
// A colour's letter and its triple.
pub(crate) fn push_colour(text: &mut Vec<u8>, number: u8, rgb: Rgb) -> Result<(), AllocError>
    requires { number < 16 }
    ensures { OnOk result (text.new.items ≡ text.old.items ++ colour_line number rgb) }
{
    text.push(letter_of(number))?;
    text.push(b' ')?;
    push_before(text, usize::from(rgb.r), b' ')?;
    push_before(text, usize::from(rgb.g), b' ')?;
    push_before(text, usize::from(rgb.b), b'\n')
}

// A line for each given, in row order.
fn push_givens(text: &mut Vec<u8>, document: &Document) -> Result<(), AllocError>
    ensures { OnOk result (text.new.items
        ≡ text.old.items ++ givens_in (design_of document.now) (length document.now.picture)) }
{
    for row in 0..document.picture.height() {
        push_row_givens(text, document, row)?;
    }
    Ok(())
}

fn push_row_givens(text: &mut Vec<u8>, document: &Document, row: u8) -> Result<(), AllocError>
    requires { row < length document.now.picture }
    ensures { OnOk result (text.new.items ≡ text.old.items
        ++ row_givens (design_of document.now) row (width_of document.now.picture)) }
{
    for col in 0..document.picture.width() {
        if is_given(document, row, col) {
            push_given(text, row, col)?;
        }
    }
    Ok(())
}

#[tactic(auto, using(crate::proofs::ReportLemmas::marks))]
// Whether a cell is a given.
fn is_given(document: &Document, row: u8, col: u8) -> bool
    requires in_rows { row < length document.now.picture }
    requires in_columns { col < width_of document.now.picture }
    ensures { result ≡ (cell_at (design_of document.now).marks row col == 1) }
{
    let _ = document.picture.height();
    document.givens.has(row, col)
}

#[tactic(auto, using(std::proofs::lemmas::List::append_assoc))]
// A given's row and column, from 1.
fn push_given(text: &mut Vec<u8>, row: u8, col: u8) -> Result<(), AllocError>
    ensures { OnOk result (text.new.items ≡ text.old.items ++ shown_given row col) }
{
    text.extend_from_slice(b"given ")?;
    push_before(text, usize::from(row) + 1, b' ')?;
    push_before(text, usize::from(col) + 1, b'\n')
}

#[tactic(auto, using(std::proofs::lemmas::List::append_assoc))]
// The clues, the map, and how many cells are open.
fn push_audit(text: &mut Vec<u8>, clues: &ClueBook, map: &Facts) -> Result<(), AllocError>
    ensures { OnOk result (text.new.items ≡ text.old.items ++ audit_text clues.now map.now) }
{
    text.extend_from_slice(b"clues\n")?;
    push_clues(text, clues)?;
    text.extend_from_slice(b"map\n")?;
    push_map(text, map)?;
    text.extend_from_slice(b"open ")?;
    push_before(text, open_cells(map), b'\n')
}

#[tactic(auto, using(crate::proofs::ReportLemmas::sums))]
// How many cells have more than one colour left.
fn open_cells(map: &Facts) -> usize
    ensures { result ≡ open_cells map.now }
{
    let mut count = 0;
    for row in 0..map.height() {
        count += open_in_row(map, row);
    }
    count
}

#[tactic(auto, using(crate::proofs::ReportLemmas::sums))]
fn open_in_row(map: &Facts, row: u8) -> usize
    requires { row < length map.now }
    ensures value { result ≡ count_by (λ mask. nat_lt 1 (count_ones mask)) (row_at map.now row) }
    ensures small { result ≤ 120 }
{
    let mut count = 0;
    for col in 0..map.width() {
        if map.left(row, col).count_ones() > 1 {
            count += 1;
        }
    }
    count
}

#[tactic(auto, using(std::proofs::lemmas::List::append_assoc))]
/// Appends the ending of a report to a text: the verdict's word, and how many edits can be undone and redone. Where the
/// text has room for it, no memory is allocated; where memory is refused, a part may have been appended.
pub fn push_ending(
    text: &mut Vec<u8>,
    verdict: &[u8],
    past: usize,
    future: usize,
) -> Result<(), AllocError>
    ensures items { OnOk result
        (text.new.items ≡ text.old.items ++ ending_text verdict.now past future) }
    ensures room { TakesRoom text.old text.new (length verdict.now + 59) result }
{
    text.extend_from_slice(b"verdict ")?;
    text.extend_from_slice(verdict)?;
    text.extend_from_slice(b"\nhistory ")?;
    push_before(text, past, b' ')?;
    push_before(text, future, b'\n')
}
