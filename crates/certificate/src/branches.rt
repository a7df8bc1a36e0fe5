//! The lines of a tree as those of the forms with lemmas. Nothing is promised of them, so they are checked.

use cert_text::{CellNumber, CertLine, Literal};
use clues::{Clue, ClueBook};
use picture::{Axis, LineId, MAX_COLOURS};
use std::alloc::{AllocError, Global};

/// The lines of a tree as those of the forms with lemmas. None where it splits a cell whose two clues do not have
/// exactly two colours in common, the background included.
pub(crate) fn told_lines(
    alloc: Global,
    clues: &ClueBook,
    tree: &[CertLine],
) -> Result<Option<Vec<CertLine>>, AllocError> {
    let mut lines = Vec::with_capacity(alloc, tree.len())?;
    for line in tree {
        let told = match *line {
            CertLine::Split(cell) => match split_told(clues, cell) {
                Some(literal) => CertLine::Part(literal),
                None => return Ok(None),
            },
            other => other,
        };
        lines.push(told)?;
    }
    Ok(Some(lines))
}

// The split of a cell between two colours: its first branch excludes the higher one. None where there are not exactly two.
fn split_told(clues: &ClueBook, cell: CellNumber) -> Option<Literal> {
    let row = colours_along(clues, Axis::Across, cell.row)?;
    let column = colours_along(clues, Axis::Down, cell.col)?;
    let both = row & column;
    let colours = both & both.wrapping_sub(1);
    if colours != 0 && colours & colours.wrapping_sub(1) == 0 {
        Some(Literal { cell, colours })
    } else {
        None
    }
}

// The colours in a line's clue, with the background. Lines are numbered from 1.
fn colours_along(clues: &ClueBook, axis: Axis, number: u16) -> Option<u16> {
    let at = u8::try_from(number.checked_sub(1)?).ok()?;
    if at < clues.line_count(axis) {
        Some(colours_of(clues.clue(LineId { axis, at })))
    } else {
        None
    }
}

// The background and the colours of a clue's blocks.
fn colours_of(clue: &Clue) -> u16 {
    let mut colours = 1u16;
    for block in clue.blocks() {
        if block.colour < MAX_COLOURS {
            colours |= 1 << block.colour;
        }
    }
    colours
}
