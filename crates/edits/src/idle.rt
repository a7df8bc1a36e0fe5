//! Edits that would leave the document as it is.

ghost use Rattle.std.specs.Prelude.{◌≡◌, ◌<◌, ◌↔◌, false, length, IsTrue, MatchBool};
ghost use Rattle.picture.specs.Rows.{cell_at, lines_along, width_of};
ghost use Rattle.edits.specs.Design.{design_of};
ghost use Rattle.edits.specs.Edit.{edited};
ghost use Rattle.edits.specs.Conditions.{deletes_last, is_outside, lacks_colour};
ghost use Rattle.edits.specs.Fault.{same_design};
ghost use Rattle.edits.specs.Note.{cells_along};
ghost use Rattle.edits.specs.Areas.{AreAlike, AreAlikeAt};

use crate::edit::Edit;
use crate::facts::know;
use crate::painting::changes_cells;
use crate::places::{line_length, place_on};
use picture::{Axis, Document};

/// Whether an edit leaves the document as it is.
pub(crate) fn changes_nothing(document: &Document, edit: &Edit) -> bool
    requires inside { is_outside document.now.picture edit.now ≡ false }
    requires coloured { lacks_colour document.now.palette edit.now ≡ false }
    requires others { deletes_last document.now.picture edit.now ≡ false }
    ensures { result ≡ same_design (edited (design_of document.now) edit.now)
        (design_of document.now) }
{
    know(document);
    match *edit {
        Edit::Paint { .. } | Edit::Fill { .. } | Edit::Recolour { .. } => {
            !changes_cells(&document.picture, edit)
        }
        Edit::SwapLines {
            axis,
            first,
            second,
        } => are_alike(document, axis, first, second),
        Edit::SetColour { colour, rgb } => document.palette.rgb(colour) == rgb,
        Edit::Pin { row, col } => is_given(document, row, col),
        Edit::Unpin { row, col } => !is_given(document, row, col),
        Edit::InsertLine { .. } | Edit::DeleteLine { .. } | Edit::AddColour { .. } => false,
    }
}

// Whether two lines of an axis have the same cells and the same givens.
fn are_alike(document: &Document, axis: Axis, first: u8, second: u8) -> bool
    requires first_in { first < lines_along axis document.now.picture }
    requires second_in { second < lines_along axis document.now.picture }
    ensures { MatchBool result (AreAlike axis first second (design_of document.now))
        (AreAlike axis first second (design_of document.now) → ⊥) }
{
    for position in 0..line_length(&document.picture, axis) {
        if !are_alike_at(document, axis, first, second, position) {
            return false;
        }
    }
    true
}

// Whether two lines of an axis have the same colour at a position, and both or no given there.
fn are_alike_at(document: &Document, axis: Axis, first: u8, second: u8, position: u8) -> bool
    requires first_in { first < lines_along axis document.now.picture }
    requires second_in { second < lines_along axis document.now.picture }
    requires position { position < cells_along axis document.now.picture }
    ensures { MatchBool result (AreAlikeAt axis first second (design_of document.now) position)
        (AreAlikeAt axis first second (design_of document.now) position → ⊥) }
{
    know(document);
    let (row, col) = place_on(axis, first, position);
    let (other_row, other_col) = place_on(axis, second, position);
    document.picture.cell(row, col) == document.picture.cell(other_row, other_col)
        && is_given(document, row, col) == is_given(document, other_row, other_col)
}

#[tactic(auto, using(crate::proofs::DesignLemmas::marking))]
/// Whether a cell is a given.
pub(crate) fn is_given(document: &Document, row: u8, col: u8) -> bool
    requires in_rows { row < length document.now.picture }
    requires in_columns { col < width_of document.now.picture }
    ensures { IsTrue result ↔ (cell_at (design_of document.now).marks row col ≡ 1) }
{
    know(document);
    document.givens.has(row, col)
}
