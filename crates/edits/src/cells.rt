//! Cells of a picture changed one by one.

ghost use Rattle.std.specs.Prelude.{◌≡◌, length, map};
ghost use Rattle.picture.specs.Document.{AreInside};
ghost use Rattle.picture.specs.Picture.{IsPicture};
ghost use Rattle.picture.specs.Rows.{width_of};
ghost use Rattle.edits.specs.Design.{marks_of};
ghost use Rattle.std.specs.List.{All};
ghost use Rattle.edits.specs.Note.{IsCellIn, IsPlaceIn, as_mark, repainted, with_cells};

use crate::edit::Edit;
use picture::{CellSet, Picture};

/// A cell by its row and its column, with a colour.
pub type Cell = (u8, u8, u8);

/// Gives each of the cells its colour.
pub(crate) fn put_cells(picture: &mut Picture, cells: &[Cell])
    requires picture { IsPicture picture.old }
    requires cells { All (IsCellIn picture.old) cells.now }
    ensures { picture.new ≡ with_cells picture.old cells.now }
{
    for &(row, col, colour) in cells {
        picture.set(row, col, colour);
    }
}

/// Gives each of the cells the colour that an edit makes of its old one.
pub(crate) fn paint_cells(picture: &mut Picture, edit: &Edit, cells: &[Cell])
    requires picture { IsPicture picture.old }
    requires cells { All (IsCellIn picture.old) (map (repainted edit.now) cells.now) }
    ensures { picture.new ≡ with_cells picture.old (map (repainted edit.now) cells.now) }
{
    for &(row, col, old) in cells {
        picture.set(row, col, edit.colour_after(row, col, old));
    }
}

/// Makes each of the cells a given.
pub(crate) fn put_givens(givens: &mut CellSet, picture: &Picture, places: &[(u8, u8)])
    requires picture { IsPicture picture.now }
    requires places { All (IsPlaceIn picture.now) places.now }
    requires inside { AreInside givens.old picture.now }
    ensures marks { marks_of (length picture.now) (width_of picture.now) givens.new
        ≡ with_cells (marks_of (length picture.now) (width_of picture.now) givens.old)
        (map as_mark places.now) }
    ensures inside { AreInside givens.new picture.now }
{
    for &(row, col) in places {
        givens.put(row, col);
    }
}
