//! The facts with which line logic starts.

ghost use Rattle.std.specs.Prelude.{◌≡◌, ◌⊎◌, ◌↔◌, ℕ, ◌<◌, length, IfOk, IsBitSet};
ghost use Rattle.picture.specs.Rows.{width_of};
ghost use Rattle.line_facts.specs.FactSets.{SameShape};
ghost use Rattle.clues.specs.ClueBook.{clues_of};
ghost use Rattle.fixpoint.specs.ClosedFacts.{AreClosable};
ghost use Rattle.grade.specs.Starts.{CanHaveColour, HasColour, IsAllowed, IsNamedAlong, IsStart, MakesStartRow};

use clues::{Clue, ClueBook};
use line_facts::Facts;
use picture::laws::cells_are_members;
use picture::{Axis, Document, LineId, MAX_SIDE};
use std::alloc::{AllocError, Global};

/// The facts with which line logic starts: in a given the picture's colour alone is left, and in every other cell the
/// background and each colour that some clue names.
pub fn start_facts(alloc: Global, document: &Document, book: &ClueBook) -> Result<Facts, AllocError>
    ensures start { IfOk result
        (λ facts. IsStart book.now document.now.givens document.now.picture facts) }
    ensures sizes { book.now ≡ clues_of document.now.picture
        → IfOk result (AreClosable book.now MAX_SIDE) }
{
    let height = document.picture.height();
    let free = named_colours(book);
    let mut facts = Facts::none(alloc, height, document.picture.width())?;
    cells_are_members();
    for row in 0..height {
        make_start_row(document, &mut facts, row, free);
    }
    Ok(facts)
}

// Sets the masks of a row to the colours that can be there, where those of a mask are free.
fn make_start_row(document: &Document, facts: &mut Facts, row: u8, free: u16)
    requires same_shape { SameShape document.now.picture facts.old }
    requires in_rows { row < length document.now.picture }
    ensures { MakesStartRow free document.now.givens document.now.picture facts.old facts.new row }
{
    for col in 0..document.picture.width() {
        facts.set_left(row, col, start_mask(document, row, col, free));
    }
}

#[tactic(auto, using(crate::proofs::StartLemmas::masks))]
// The colours that can be in a cell, where those of a mask are free.
fn start_mask(document: &Document, row: u8, col: u8, free: u16) -> u16
    requires in_rows { row < length document.now.picture }
    requires in_columns { col < width_of document.now.picture }
    ensures { (k : ℕ) → IsBitSet result k
        ↔ CanHaveColour (IsBitSet free) document.now.givens document.now.picture row col k }
{
    let colour = document.picture.cell(row, col);
    if document.givens.has(row, col) {
        1 << colour
    } else {
        free
    }
}

// The background and the colours that some clue names, as a mask.
fn named_colours(book: &ClueBook) -> u16
    ensures { (k : ℕ) → IsBitSet result k ↔ IsAllowed book.now k }
{
    colours_along(book, Axis::Across) | colours_along(book, Axis::Down) | 1
}

// The colours that the clues along an axis name.
fn colours_along(book: &ClueBook, axis: Axis) -> u16
    ensures { (k : ℕ) → IsBitSet result k ↔ IsNamedAlong axis book.now k }
{
    let mut colours = 0;
    for at in 0..book.line_count(axis) {
        colours |= colours_of(book.clue(LineId { axis, at }));
    }
    colours
}

// The colours of the blocks of a clue.
fn colours_of(clue: &Clue) -> u16
    ensures { (k : ℕ) → IsBitSet result k ↔ HasColour clue.now k }
{
    let mut colours = 0;
    for block in clue.blocks() {
        colours |= 1 << block.colour;
    }
    colours
}
