//! Pictures and maps as text, a line for each row.

ghost use Rattle.std.specs.Prelude.{◌≡◌, ◌<◌, ◌+◌, ◌%◌, ◌++◌, ◌==◌, length, map, OnOk};
ghost use Rattle.std.specs.Int.{bit_at};
ghost use Rattle.std.specs.List.{flat_map};
ghost use Rattle.picture.specs.Rows.{row_at, width_of};
ghost use Rattle.report_text.specs.Room.{TakesRoom, picture_room};
ghost use Rattle.report_text.specs.Shown.{letter, map_text, mask_letter, picture_text, shown_row};

use line_facts::Facts;
use picture::{MAX_COLOURS, MAX_SIDE, Picture};
use std::alloc::AllocError;

// The letter of a colour.
pub(crate) fn letter_of(colour: u8) -> u8
    requires { colour < 16 }
    ensures { result ≡ letter colour }
{
    if colour == 0 { b'.' } else { b'a' - 1 + colour }
}

/// The letter of a colour, which is one of sixteen.
pub(crate) fn colour_letter(colour: u8) -> u8
    ensures { result ≡ letter (colour % 16) }
{
    letter_of(colour % MAX_COLOURS)
}

#[tactic(auto, using(crate::proofs::ShownLemmas::lowest_of_one))]
// The letter of the only colour in a mask, or `?`.
fn mask_letter(mask: u16) -> u8
    ensures { result ≡ mask_letter mask }
{
    if mask.count_ones() == 1 {
        letter_of(mask.trailing_zeros() as u8)
    } else {
        b'?'
    }
}

// Whether a mask has a colour.
pub(crate) fn has_colour(mask: u16, colour: u8) -> bool
    requires { colour < 16 }
    ensures { result ≡ (bit_at mask colour == 1) }
{
    (mask >> colour) & 1 == 1
}

/// Appends the rows of a picture to a text, a letter for each cell and a line feed after each row. Where the text
/// has room for them, no memory is allocated; where memory is refused, a part may have been appended.
pub fn push_picture(text: &mut Vec<u8>, picture: &Picture) -> Result<(), AllocError>
    ensures items { OnOk result (text.new.items ≡ text.old.items ++ picture_text picture.now) }
    ensures room { TakesRoom text.old text.new (picture_room picture.now) result }
{
    for row in 0..picture.height() {
        push_row(text, picture, row)?;
    }
    Ok(())
}

// A row of a picture.
fn push_row(text: &mut Vec<u8>, picture: &Picture, row: u8) -> Result<(), AllocError>
    requires { row < length picture.now }
    ensures items { OnOk result
        (text.new.items ≡ text.old.items ++ shown_row letter (row_at picture.now row)) }
    ensures room { TakesRoom text.old text.new (width_of picture.now + 1) result }
{
    for col in 0..picture.width() {
        text.push(letter_of(picture.cell(row, col)))?;
    }
    Ok(text.push(b'\n')?)
}

/// Appends the rows of a map to a text: the letter of the one colour that is left in a cell, or `?`. Where memory is
/// refused, a part may have been appended.
pub fn push_map(text: &mut Vec<u8>, facts: &Facts) -> Result<(), AllocError>
    ensures { OnOk result (text.new.items ≡ text.old.items ++ map_text facts.now) }
{
    for row in 0..facts.height() {
        push_masks(text, facts, row)?;
    }
    Ok(())
}

// A row of a map. Its letters are appended in one call.
fn push_masks(text: &mut Vec<u8>, facts: &Facts, row: u8) -> Result<(), AllocError>
    requires { row < length facts.now }
    ensures { OnOk result (text.new.items
        ≡ text.old.items ++ shown_row mask_letter (row_at facts.now row)) }
{
    let mut letters = [0; MAX_SIDE as usize];
    let cells = facts.width();
    for col in 0..cells {
        letters[usize::from(col)] = mask_letter(facts.left(row, col));
    }
    text.extend_from_slice(&letters[..usize::from(cells)])?;
    Ok(text.push(b'\n')?)
}
