//! Why an edit of a document is refused.

ghost use Rattle.std.specs.Prelude.{◌≡◌, false};
ghost use Rattle.edits.specs.Design.{design_of};
ghost use Rattle.edits.specs.Conditions.{deletes_last, has_no_room, is_full, is_outside, is_over, is_there, lacks_colour, sets_background};
ghost use Rattle.edits.specs.Fault.{edit_fault, has_cell};

use crate::edit::Edit;
use crate::fault::EditFault;
use crate::idle::changes_nothing;
use picture::{Document, MAX_COLOURS, MAX_SIDE, Palette, Picture};

#[tactic(auto, using(crate::proofs::FaultLemmas::asked_in_turn))]
impl Edit {
    /// Why the edit of a document is refused, where it is: the first error in order whose condition holds. It takes no
    /// memory.
    pub fn refusal(&self, document: &Document) -> Option<EditFault>
        ensures { result ≡ edit_fault (design_of document.now) self.now }
    {
        if is_outside(&document.picture, self) {
            Some(EditFault::Place)
        } else if lacks_colour(&document.palette, self) {
            Some(EditFault::Colour)
        } else if has_no_room(&document.picture, self) {
            Some(EditFault::TooLarge)
        } else if deletes_last(&document.picture, self) {
            Some(EditFault::LastLine)
        } else if is_over(&document.palette, self) {
            Some(EditFault::SampleOver)
        } else if is_full(&document.palette, self) {
            Some(EditFault::PaletteFull)
        } else if is_there(&document.palette, self) {
            Some(EditFault::DuplicateColour)
        } else if sets_background(self) {
            Some(EditFault::Background)
        } else if changes_nothing(document, self) {
            Some(EditFault::NoChange)
        } else {
            None
        }
    }
}

// A cell or a line lies outside the picture, or a rectangle has no cell.
fn is_outside(picture: &Picture, edit: &Edit) -> bool
    ensures { result ≡ is_outside picture.now edit.now }
{
    match *edit {
        Edit::Paint { row, col, .. } | Edit::Pin { row, col } | Edit::Unpin { row, col } => {
            !has_cell(picture, row, col)
        }
        Edit::Fill {
            top,
            left,
            bottom,
            right,
            ..
        } => !(has_cell(picture, bottom, right) && (top <= bottom && left <= right)),
        Edit::InsertLine { line } => line.at > picture.line_count(line.axis),
        Edit::DeleteLine { line } => line.at >= picture.line_count(line.axis),
        Edit::SwapLines {
            axis,
            first,
            second,
        } => first >= picture.line_count(axis) || second >= picture.line_count(axis),
        Edit::Recolour { .. } | Edit::AddColour { .. } | Edit::SetColour { .. } => false,
    }
}

// Whether a cell is one of the picture's.
fn has_cell(picture: &Picture, row: u8, col: u8) -> bool
    ensures { result ≡ has_cell picture.now row col }
{
    row < picture.height() && col < picture.width()
}

// The edit names a colour that the palette lacks.
fn lacks_colour(palette: &Palette, edit: &Edit) -> bool
    ensures { result ≡ lacks_colour palette.now edit.now }
{
    match *edit {
        Edit::Paint { colour, .. } | Edit::Fill { colour, .. } | Edit::SetColour { colour, .. } => {
            colour >= palette.len()
        }
        Edit::Recolour { source, target } => source >= palette.len() || target >= palette.len(),
        _ => false,
    }
}

// A line is to be inserted, but there are `MAX_SIDE` lines along its axis already.
fn has_no_room(picture: &Picture, edit: &Edit) -> bool
    ensures { result ≡ has_no_room picture.now edit.now }
{
    matches!(*edit, Edit::InsertLine { line } if picture.line_count(line.axis) >= MAX_SIDE)
}

// The only line of its axis is to be deleted.
fn deletes_last(picture: &Picture, edit: &Edit) -> bool
    ensures { result ≡ deletes_last picture.now edit.now }
{
    matches!(*edit, Edit::DeleteLine { line } if picture.line_count(line.axis) <= 1)
}

// A sample is above the maxval.
fn is_over(palette: &Palette, edit: &Edit) -> bool
    ensures { result ≡ is_over palette.now edit.now }
{
    match *edit {
        Edit::AddColour { rgb } | Edit::SetColour { rgb, .. } => {
            let maxval = palette.maxval();
            !(rgb.r <= maxval && (rgb.g <= maxval && rgb.b <= maxval))
        }
        _ => false,
    }
}

// A colour is to be added, but the palette has `MAX_COLOURS` colours already.
fn is_full(palette: &Palette, edit: &Edit) -> bool
    ensures { result ≡ is_full palette.now edit.now }
{
    matches!(*edit, Edit::AddColour { .. } if palette.len() >= MAX_COLOURS)
}

// The palette has the colour already, at another number.
fn is_there(palette: &Palette, edit: &Edit) -> bool
    requires { lacks_colour palette.now edit.now ≡ false }
    ensures { result ≡ is_there palette.now edit.now }
{
    match *edit {
        Edit::AddColour { rgb } => palette.number_of(rgb).is_some(),
        Edit::SetColour { colour, rgb } => palette.stands_elsewhere(colour, rgb),
        _ => false,
    }
}

// The colour of the background is to be set, even to what it is.
fn sets_background(edit: &Edit) -> bool
    ensures { result ≡ sets_background edit.now }
{
    matches!(*edit, Edit::SetColour { colour: 0, .. })
}
