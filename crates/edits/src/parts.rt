//! Documents made from another one's parts.

ghost use Rattle.std.specs.Prelude.{◌≡◌, ◌<◌, ◌≤◌, length, map, IfOk};
ghost use Rattle.std.specs.List.{All};
ghost use Rattle.picture.specs.Document.{AreColoured};
ghost use Rattle.picture.specs.Picture.{IsPicture};
ghost use Rattle.picture.specs.Palette.{with_colour, with_triple, without_last};
ghost use Rattle.picture.specs.Rows.{line_deleted, line_inserted, lines_along, lines_swapped, width_of, with_cell};
ghost use Rattle.clues.specs.Change.{lines_before};
ghost use Rattle.edits.specs.Design.{design, design_of};
ghost use Rattle.edits.specs.MovedGivens.{AreMoved};
ghost use Rattle.edits.specs.Note.{IsCellIn, IsPlaceIn, as_mark, repainted, with_cells};

use crate::cells::{Cell, paint_cells, put_cells, put_givens};
use crate::edit::Edit;
use crate::facts::know;
use crate::moving::moved_givens;
use clues::Change;
use picture::{Axis, Document, LineId, MAX_SIDE, Picture, Rgb};
use std::alloc::AllocError;

/// The document with the cells of a list painted by an edit.
pub fn painted(document: &Document, edit: &Edit, cells: &[Cell]) -> Result<Document, AllocError>
    requires picture { IsPicture document.now.picture }
    requires cells { All (IsCellIn document.now.picture) (map (repainted edit.now) cells.now) }
    requires coloured { AreColoured (with_cells document.now.picture
        (map (repainted edit.now) cells.now)) document.now.palette }
    ensures { IfOk result (λ d. design_of d
        ≡ design document.now.palette
        (with_cells document.now.picture (map (repainted edit.now) cells.now))
        (design_of document.now).marks) }
{
    let mut after = document.copy()?;
    paint_cells(&mut after.picture, edit, cells);
    Ok(after)
}

/// The document with each cell of a list set to its colour in the list.
pub fn with_cells(document: &Document, cells: &[Cell]) -> Result<Document, AllocError>
    requires picture { IsPicture document.now.picture }
    requires cells { All (IsCellIn document.now.picture) cells.now }
    requires coloured { AreColoured (with_cells document.now.picture cells.now)
        document.now.palette }
    ensures { IfOk result (λ d. design_of d
        ≡ design document.now.palette (with_cells document.now.picture cells.now)
        (design_of document.now).marks) }
{
    let mut after = document.copy()?;
    put_cells(&mut after.picture, cells);
    Ok(after)
}

// The document with a picture whose lines have moved. The change leads back from it to the document's own.
fn moved(document: &Document, picture: Picture, back: &Change) -> Result<Document, AllocError>
    requires rows { length picture ≡ lines_before Axis.Across back.now.moves }
    requires columns { width_of picture ≡ lines_before Axis.Down back.now.moves }
    requires coloured { AreColoured picture document.now.palette }
    ensures palette { IfOk result (λ d. d.palette ≡ document.now.palette) }
    ensures picture { IfOk result (λ d. d.picture ≡ picture) }
    ensures givens { IfOk result (λ d. AreMoved document.now.givens d.givens back.now.moves
        (length picture) (width_of picture)) }
{
    Ok(Document {
        palette: document.palette.copy()?,
        givens: moved_givens(&document.givens, back, picture.height(), picture.width()),
        picture,
    })
}

/// The document with a line of background inserted.
pub fn inserted(document: &Document, line: LineId) -> Result<Document, AllocError>
    requires picture { IsPicture document.now.picture }
    requires place { line.at ≤ lines_along line.axis document.now.picture }
    requires room { lines_along line.axis document.now.picture < MAX_SIDE }
    requires coloured { AreColoured (line_inserted document.now.picture line) document.now.palette }
    ensures { IfOk result (λ d. design_of d
        ≡ design document.now.palette (line_inserted document.now.picture line)
        (line_inserted (design_of document.now).marks line)) }
{
    let mut picture = document.picture.copy()?;
    picture.insert_line(line)?;
    let back = Change::delete(picture.height(), picture.width(), line);
    moved(document, picture, &back)
}

/// The document with a line deleted.
pub fn deleted(document: &Document, line: LineId) -> Result<Document, AllocError>
    requires picture { IsPicture document.now.picture }
    requires place { line.at < lines_along line.axis document.now.picture }
    requires others { 1 < lines_along line.axis document.now.picture }
    requires coloured { AreColoured (line_deleted document.now.picture line) document.now.palette }
    ensures { IfOk result (λ d. design_of d
        ≡ design document.now.palette (line_deleted document.now.picture line)
        (line_deleted (design_of document.now).marks line)) }
{
    let mut picture = document.picture.copy()?;
    picture.delete_line(line);
    let back = Change::insert(picture.height(), picture.width(), line);
    moved(document, picture, &back)
}

/// The document with two lines exchanged.
pub fn swapped(
    document: &Document,
    axis: Axis,
    first: u8,
    second: u8,
) -> Result<Document, AllocError>
    requires picture { IsPicture document.now.picture }
    requires first_in { first < lines_along axis document.now.picture }
    requires second_in { second < lines_along axis document.now.picture }
    requires coloured { AreColoured (lines_swapped axis first second document.now.picture)
        document.now.palette }
    ensures { IfOk result (λ d. design_of d
        ≡ design document.now.palette (lines_swapped axis first second document.now.picture)
        (lines_swapped axis first second (design_of document.now).marks)) }
{
    let mut picture = document.picture.copy()?;
    picture.swap_lines(axis, first, second);
    let back = Change::swap(picture.height(), picture.width(), axis, first, second);
    moved(document, picture, &back)
}

/// The document with a cell made a given.
pub fn pinned(document: &Document, row: u8, col: u8) -> Result<Document, AllocError>
    requires picture { IsPicture document.now.picture }
    requires in_rows { row < length document.now.picture }
    requires in_columns { col < width_of document.now.picture }
    ensures { IfOk result (λ d. design_of d
        ≡ design document.now.palette document.now.picture
        (with_cell (design_of document.now).marks row col 1)) }
{
    let mut after = document.copy()?;
    after.givens.put(row, col);
    Ok(after)
}

/// The document with a cell that is no longer a given.
pub fn unpinned(document: &Document, row: u8, col: u8) -> Result<Document, AllocError>
    requires picture { IsPicture document.now.picture }
    requires in_rows { row < length document.now.picture }
    requires in_columns { col < width_of document.now.picture }
    ensures { IfOk result (λ d. design_of d
        ≡ design document.now.palette document.now.picture
        (with_cell (design_of document.now).marks row col 0)) }
{
    let mut after = document.copy()?;
    after.givens.take_out(row, col);
    Ok(after)
}

/// The document with one colour more.
pub fn added(document: &Document, rgb: Rgb) -> Result<Document, AllocError>
    ensures { IfOk result (λ d. design_of d
        ≡ design (with_colour document.now.palette rgb) document.now.picture
        (design_of document.now).marks) }
{
    let mut after = document.copy()?;
    // The edit was lawful, so the only error is out of memory.
    after.palette.add(rgb).map_err(|_| AllocError)?;
    Ok(after)
}

/// The document with another colour at a number.
pub fn recoloured(document: &Document, colour: u8, rgb: Rgb) -> Result<Document, AllocError>
    requires { colour < length document.now.palette.triples }
    ensures { IfOk result (λ d. design_of d
        ≡ design (with_triple document.now.palette colour rgb) document.now.picture
        (design_of document.now).marks) }
{
    let mut after = document.copy()?;
    // The edit was lawful, so the only error is out of memory.
    after.palette.set(colour, rgb).map_err(|_| AllocError)?;
    Ok(after)
}

/// The document without its last colour, which no cell has.
pub fn without_last(document: &Document) -> Result<Document, AllocError>
    requires more { 1 < length document.now.palette.triples }
    requires coloured { AreColoured document.now.picture (without_last document.now.palette) }
    ensures { IfOk result (λ d. design_of d
        ≡ design (without_last document.now.palette) document.now.picture
        (design_of document.now).marks) }
{
    let mut after = document.copy()?;
    after.palette.pop_last();
    Ok(after)
}

/// The document with a deleted line put back, with its cells and its givens.
pub fn restored(
    document: &Document,
    line: LineId,
    cells: &[Cell],
    givens: &[(u8, u8)],
) -> Result<Document, AllocError>
    requires picture { IsPicture document.now.picture }
    requires place { line.at ≤ lines_along line.axis document.now.picture }
    requires room { lines_along line.axis document.now.picture < MAX_SIDE }
    requires blank { AreColoured (line_inserted document.now.picture line) document.now.palette }
    requires cells { All (IsCellIn (line_inserted document.now.picture line)) cells.now }
    requires givens { All (IsPlaceIn (line_inserted document.now.picture line)) givens.now }
    requires coloured { AreColoured (with_cells (line_inserted document.now.picture line) cells.now)
        document.now.palette }
    ensures { IfOk result (λ d. design_of d
        ≡ design document.now.palette
        (with_cells (line_inserted document.now.picture line) cells.now)
        (with_cells (line_inserted (design_of document.now).marks line) (map as_mark givens.now))) }
{
    let blank = inserted(document, line)?;
    know(&blank);
    let Document {
        palette,
        mut picture,
        givens: mut marked,
    } = blank;
    put_givens(&mut marked, &picture, givens);
    put_cells(&mut picture, cells);
    Ok(Document {
        palette,
        picture,
        givens: marked,
    })
}
