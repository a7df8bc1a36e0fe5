//! Lines with the held picture's colours in their open cells.

ghost use Rattle.std.specs.Prelude.{ℕ, ◌<◌, length, IsTrue};
ghost use Rattle.picture.specs.Picture.{IsPicture};
ghost use Rattle.picture.specs.Rows.{HasLine, cell_at, row_at};
ghost use Rattle.clues.specs.ClueBook.{HasClue};
ghost use Rattle.line_facts.specs.FactSets.{Leaves, SameShape};

use crate::puzzle::Puzzle;
use crate::regions::take_place;
use clues::{Block, ClueBook, without_run};
use line_facts::Facts;
use picture::{Axis, LineId, MAX_COLOURS, MAX_SIDE, Picture};
use std::alloc::{AllocError, Global};

// No line has more cells.
const MOST_CELLS: usize = MAX_SIDE as usize;

/// Whether each line has its clue when the open cells take the held picture's colours. False where no picture is held.
pub fn fills_all(puzzle: &Puzzle, facts: &Facts) -> bool {
    are_filled(puzzle, facts, Axis::Across, !(u128::MAX << facts.height()))
        && are_filled(puzzle, facts, Axis::Down, !(u128::MAX << facts.width()))
}

/// The same for the lines along an axis at the places that a mask has.
pub(crate) fn are_filled(puzzle: &Puzzle, facts: &Facts, axis: Axis, places: u128) -> bool {
    let mut rest = places;
    while let Some(at) = take_place(&mut rest) {
        if !is_filled(puzzle, facts, LineId { axis, at }) {
            return false;
        }
    }
    true
}

/// Whether the facts have a line, and the clue book its clue.
pub(crate) fn is_there(clues: &ClueBook, facts: &Facts, line: LineId) -> bool
    ensures line { IsTrue result → HasLine facts.now line }
    ensures clue { IsTrue result → HasClue clues.now line }
{
    match line.axis {
        Axis::Across => line.at < facts.height() && line.at < clues.height(),
        Axis::Down => line.at < facts.width() && line.at < clues.width(),
    }
}

/// Whether a line has its clue when its open cells take the held picture's colours. False for a line that is not there.
pub(crate) fn is_filled(puzzle: &Puzzle, facts: &Facts, line: LineId) -> bool {
    let Some(held) = puzzle.held else {
        return false;
    };
    if !is_there(puzzle.clues, facts, line) || line.at >= held.line_count(line.axis) {
        return false;
    }
    let mut left = [0; MOST_CELLS];
    let cells = usize::from(facts.line_len(line));
    facts.copy_line(line, &mut left[..cells]);
    let view = held.line(line);
    let mut blocks = puzzle.clues.clue(line).blocks();
    let mut run = Block { len: 0, colour: 0 };
    for place in 0..cells.min(view.len()) {
        let colour = colour_of(left[place], view.get(place));
        if colour == run.colour {
            run.len = run.len.saturating_add(1);
        } else {
            let Some(rest) = without_run(blocks, run) else {
                return false;
            };
            blocks = rest;
            run = Block { len: 1, colour };
        }
    }
    without_run(blocks, run).is_some_and(|rest| rest.is_empty())
}

/// The picture with the colours of settled cells, with those of the held picture in open cells, and background elsewhere.
pub fn filled(alloc: Global, puzzle: &Puzzle, facts: &Facts) -> Result<Picture, AllocError> {
    let mut picture = Picture::blank(alloc, facts.height(), facts.width())?;
    for row in 0..facts.height() {
        for col in 0..facts.width() {
            let colour = colour_of(facts.left(row, col), held_at(puzzle.held, row, col));
            if row < picture.height() && col < picture.width() && colour < MAX_COLOURS {
                picture.set(row, col, colour);
            }
        }
    }
    Ok(picture)
}

/// Whether facts have the size of a picture, and leave its colours.
pub fn leaves(facts: &Facts, picture: &Picture) -> bool
    ensures shape { IsTrue result → SameShape picture.now facts.now }
    ensures leaves { IsTrue result → (row col : ℕ) → col < length (row_at picture.now row)
        → Leaves facts.now row col (cell_at picture.now row col) }
    ensures picture { IsPicture picture.now }
{
    if picture.height() != facts.height() || picture.width() != facts.width() {
        return false;
    }
    for row in 0..facts.height() {
        for col in 0..facts.width() {
            if facts.excluded(row, col, picture.cell(row, col)) {
                return false;
            }
        }
    }
    true
}

// The only colour that is left, or the held one where it and others are left. Where there is no such colour, 16, which is
// no colour.
fn colour_of(left: u16, held: u8) -> u8 {
    let open = left & left.wrapping_sub(1) != 0;
    let shown = if open {
        left & 1_u16.wrapping_shl(u32::from(held))
    } else {
        left
    };
    shown.trailing_zeros() as u8
}

/// The colour of the held picture in a cell, background where none is held or it does not have the cell.
pub(crate) fn held_at(held: Option<&Picture>, row: u8, col: u8) -> u8 {
    match held {
        Some(picture) if row < picture.height() && col < picture.width() => picture.cell(row, col),
        _ => 0,
    }
}
