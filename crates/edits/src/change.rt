//! What an edit changes: which lines it moves, and which lines have other cells afterwards.

ghost use Rattle.std.specs.Prelude.{◌≡◌, ◌<◌, ◌⊎◌, ◌↔◌, length, MatchBool};
ghost use Rattle.picture.specs.declared.line_id.LineId.{LineId};
ghost use Rattle.picture.specs.Picture.{IsPicture};
ghost use Rattle.picture.specs.Rows.{lines_along, lines_swapped, width_of};
ghost use Rattle.clues.specs.Change.{AreMoves, IsChangeOf, IsTouched, lines_after, moved_along, still};
ghost use Rattle.clues.specs.Laws.{IsOnLine};
ghost use Rattle.edits.specs.Change.{DifferIn, Leads, moves_of, reversed_edit};
ghost use Rattle.edits.specs.Note.{cells_along};
ghost use Rattle.edits.specs.Areas.{SameAt};

use crate::cells::Cell;
use crate::edit::Edit;
use crate::entry::Entry;
use crate::places::{line_length, place_on};
use clues::{Change, Places};
use picture::{Axis, Document, LineId, Picture};

impl Entry {
    ghost use Rattle.clues.specs.Change.{back};
    ghost use Rattle.edits.specs.Design.{design_of};
    ghost use Rattle.edits.specs.Note.{IsStep, note_of};

    /// What the edit changes: which lines it moves, and which lines have other cells afterwards. The entry must be that
    /// of an edit that turns `before` into `after`.
    pub fn change(&self, before: &Document, after: &Document) -> Change
        requires { IsStep (design_of before.now) (note_of self.now) (design_of after.now) }
        ensures moves { result.moves ≡ moves_of self.now.edit before.now.picture }
        ensures are_moves { AreMoves result.moves }
        ensures exact { IsChangeOf result before.now.picture after.now.picture }
    {
        change_by(self.edit, &self.cells, &before.picture, &after.picture)
    }

    /// What undoing the edit changes. The entry must be that of an edit that turns `before` into `after`. The change
    /// leads from `after` to `before`.
    pub fn change_back(&self, before: &Document, after: &Document) -> Change
        requires { IsStep (design_of before.now) (note_of self.now) (design_of after.now) }
        ensures moves { result.moves ≡ back (moves_of self.now.edit before.now.picture) }
        ensures are_moves { AreMoves result.moves }
        ensures exact { IsChangeOf result after.now.picture before.now.picture }
    {
        let edit = reversed_edit(self.edit);
        change_by(edit, &self.cells, &after.picture, &before.picture)
    }
}

// The edit that moves lines back.
fn reversed_edit(edit: Edit) -> Edit
    ensures { result ≡ reversed_edit edit }
{
    match edit {
        Edit::InsertLine { line } => Edit::DeleteLine { line },
        Edit::DeleteLine { line } => Edit::InsertLine { line },
        _ => edit,
    }
}

// The change from one picture to the other, to which an edit leads. Where it moves no line, `cells` are those in which
// the pictures differ.
fn change_by(edit: Edit, cells: &[Cell], old: &Picture, new: &Picture) -> Change
    requires { Leads edit cells.now old.now new.now }
    ensures moves { result.moves ≡ moves_of edit old.now }
    ensures are_moves { AreMoves result.moves }
    ensures exact { IsChangeOf result old.now new.now }
{
    let _ = new.height();
    let (height, width) = (old.height(), old.width());
    match edit {
        Edit::InsertLine { line } => Change::insert(height, width, line),
        Edit::DeleteLine { line } => Change::delete(height, width, line),
        Edit::SwapLines {
            axis,
            first,
            second,
        } => of_swap(old, new, axis, first, second),
        _ => of_cells(old, new, cells),
    }
}

// The change between two pictures of one size. The cells are those in which they differ.
fn of_cells(old: &Picture, new: &Picture, cells: &[Cell]) -> Change
    requires picture { IsPicture new.now }
    requires differ { DifferIn cells.now old.now new.now }
    ensures moves { result.moves ≡ still (length old.now) (width_of old.now) }
    ensures are_moves { AreMoves result.moves }
    ensures exact { IsChangeOf result old.now new.now }
{
    let mut change = Change::cells(old.height(), old.width());
    for &(row, col, _) in cells {
        touch_cell(&mut change, row, col);
    }
    change
}

// Touches the two lines on which a cell lies.
fn touch_cell(change: &mut Change, row: u8, col: u8)
    requires in_rows { row < lines_after Axis.Across change.old.moves }
    requires in_columns { col < lines_after Axis.Down change.old.moves }
    ensures moves { change.new.moves ≡ change.old.moves }
    ensures touched { (line : LineId)
        → IsTouched change.new line ↔ (IsTouched change.old line ⊎ IsOnLine line row col) }
{
    let axis = Axis::Across;
    let line = LineId { axis, at: row };
    change.touch(line);
    change.touch(line.crossing(col));
}

// The change between a picture and the one with two lines exchanged.
fn of_swap(old: &Picture, new: &Picture, axis: Axis, first: u8, second: u8) -> Change
    requires picture { IsPicture new.now }
    requires first_in { first < lines_along axis old.now }
    requires second_in { second < lines_along axis old.now }
    requires swapped { new.now ≡ lines_swapped axis first second old.now }
    ensures moves { result.moves
        ≡ moved_along axis (Places.Swapped first second) (length old.now) (width_of old.now) }
    ensures are_moves { AreMoves result.moves }
    ensures exact { IsChangeOf result old.now new.now }
{
    let mut change = Change::swap(old.height(), old.width(), axis, first, second);
    for at in 0..line_length(old, axis) {
        if !is_same_at(old, axis, first, second, at) {
            let crossing = axis.crossing();
            change.touch(LineId { axis: crossing, at });
        }
    }
    change
}

// Whether two lines of an axis have the same cell at a position.
fn is_same_at(picture: &Picture, axis: Axis, first: u8, second: u8, position: u8) -> bool
    requires first_in { first < lines_along axis picture.now }
    requires second_in { second < lines_along axis picture.now }
    requires position { position < cells_along axis picture.now }
    ensures { MatchBool result (SameAt axis first second picture.now position)
        (SameAt axis first second picture.now position → ⊥) }
{
    let (row, col) = place_on(axis, first, position);
    let (other_row, other_col) = place_on(axis, second, position);
    picture.cell(row, col) == picture.cell(other_row, other_col)
}
