//! What is kept of an edit, so that it can be taken back.

ghost use Rattle.std.specs.Prelude.{◌≡◌, ◌<◌, false, IfOk};
ghost use Rattle.picture.specs.Rows.{lines_along};
ghost use Rattle.edits.specs.Design.{design_of};
ghost use Rattle.edits.specs.Conditions.{is_outside, lacks_colour};
ghost use Rattle.edits.specs.Note.{cells_kept, cells_of_line, givens_kept, givens_of_line, triple_kept};

use crate::cells::Cell;
use crate::edit::Edit;
use crate::facts::know;
use crate::idle::is_given;
use crate::painting::changed_cells;
use crate::places::{line_length, place_on};
use picture::{Document, LineId, Palette, Picture, Rgb};
use std::alloc::{AllocError, Global};

// The rows and the columns of givens.
type Givens = Vec<(u8, u8)>;

/// The cells that an edit changes or deletes, with their old colours, in row order.
pub fn kept_cells(alloc: Global, picture: &Picture, edit: &Edit) -> Result<Vec<Cell>, AllocError>
    requires { is_outside picture.now edit.now ≡ false }
    ensures { IfOk result (λ cells. cells.items ≡ cells_kept picture.now edit.now) }
{
    match *edit {
        Edit::Paint { .. } | Edit::Fill { .. } | Edit::Recolour { .. } => {
            changed_cells(alloc, picture, edit)
        }
        Edit::DeleteLine { line } => cells_of_line(alloc, picture, line),
        _ => Ok(Vec::new(alloc)),
    }
}

// The cells of a line.
#[tactic(auto, using(crate::proofs::KeptLemmas::keeping))]
fn cells_of_line(alloc: Global, picture: &Picture, line: LineId) -> Result<Vec<Cell>, AllocError>
    requires { line.at < lines_along line.axis picture.now }
    ensures { IfOk result (λ cells. cells.items ≡ cells_of_line picture.now line) }
{
    let mut cells = Vec::new(alloc);
    for position in 0..line_length(picture, line.axis) {
        let (row, col) = place_on(line.axis, line.at, position);
        cells.push((row, col, picture.cell(row, col)))?;
    }
    Ok(cells)
}

/// The old colour of the palette's number that an edit sets, if it sets one.
pub fn kept_triple(palette: &Palette, edit: &Edit) -> Option<Rgb>
    requires { lacks_colour palette.now edit.now ≡ false }
    ensures { result ≡ triple_kept palette.now edit.now }
{
    match *edit {
        Edit::SetColour { colour, .. } => Some(palette.rgb(colour)),
        _ => None,
    }
}

/// The givens of the line that an edit deletes, if it deletes one, in row order.
pub fn kept_givens(alloc: Global, document: &Document, edit: &Edit) -> Result<Givens, AllocError>
    requires { is_outside document.now.picture edit.now ≡ false }
    ensures { IfOk result (λ givens.
        givens.items ≡ givens_kept (design_of document.now).marks edit.now) }
{
    match *edit {
        Edit::DeleteLine { line } => givens_of_line(alloc, document, line),
        _ => Ok(Vec::new(alloc)),
    }
}

// The givens of a line.
#[tactic(auto, using(crate::proofs::KeptLemmas::keeping))]
fn givens_of_line(alloc: Global, document: &Document, line: LineId) -> Result<Givens, AllocError>
    requires { line.at < lines_along line.axis document.now.picture }
    ensures { IfOk result (λ givens.
        givens.items ≡ givens_of_line (design_of document.now).marks line) }
{
    know(document);
    let mut givens = Vec::new(alloc);
    for position in 0..line_length(&document.picture, line.axis) {
        let (row, col) = place_on(line.axis, line.at, position);
        if is_given(document, row, col) {
            givens.push((row, col))?;
        }
    }
    Ok(givens)
}
