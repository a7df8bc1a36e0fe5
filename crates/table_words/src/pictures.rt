//! Pictures as rows of letters.

ghost use Rattle.std.specs.Prelude.{◌<◌, ◌≤◌, length};

use crate::colours::{capital_of, cell_in, letter_of, triple_of};
use anyhow::{Context, Result, ensure};
use edits::{Edit, Studio};
use picture::{CellSet, Document, Palette, Picture};
use std::alloc::{AllocError, Global};

/// The document of rows of letters, joined by `/`. Its palette goes up to the highest letter, or the one after a `+`.
pub fn document_in(alloc: Global, word: &str) -> Result<Document> {
    let (rows, more) = word.split_once('+').unwrap_or((word, ""));
    let height = rows.split('/').count();
    let width = rows.split('/').next().context("a row")?.len();
    ensure!(0 < height && height <= 120, "1 to 120 rows");
    ensure!(0 < width && width <= 120, "1 to 120 columns");
    let palette = Palette::start(alloc, 255, triple_of(0))?;
    let blank = blank(alloc, palette, height as u8, width as u8)?;
    let mut studio = Studio::start(alloc, blank, 1)?;
    add_colours(alloc, &mut studio, rows, more)?;
    for (row, letters) in rows.split('/').enumerate() {
        ensure!(letters.len() == width, "rows of one length");
        draw_row(alloc, &mut studio, row, letters)?;
    }
    Ok(studio.document().copy()?)
}

// A blank picture with a palette.
fn blank(alloc: Global, palette: Palette, height: u8, width: u8) -> Result<Document, AllocError>
    requires height { (0 < height) × (height ≤ 120) }
    requires width { (0 < width) × (width ≤ 120) }
{
    let _ = palette.len();
    let picture = Picture::blank(alloc, height, width)?;
    Ok(Document {
        palette,
        picture,
        givens: CellSet::empty(),
    })
}

// Adds the colours up to the highest letter.
fn add_colours(alloc: Global, studio: &mut Studio, rows: &str, more: &str) -> Result<()> {
    let mut highest = 0;
    for letter in rows.bytes().chain(more.bytes()) {
        if letter != b'/' {
            highest = cell_in(letter)?.colour.max(highest);
        }
    }
    for colour in 1..16 {
        if colour <= highest {
            let rgb = triple_of(colour);
            make(alloc, studio, &Edit::AddColour { rgb })?;
        }
    }
    Ok(())
}

// Makes an edit.
fn make(alloc: Global, studio: &mut Studio, edit: &Edit) -> Result<()> {
    let prepared = studio.prepare(alloc, edit)?;
    studio.commit(prepared);
    Ok(())
}

// Paints the cells of a row, and pins its givens.
fn draw_row(alloc: Global, studio: &mut Studio, row: usize, letters: &str) -> Result<()> {
    for (col, letter) in letters.bytes().enumerate() {
        ensure!(row < 120 && col < 120, "at most 120 lines");
        let (row, col) = (row as u8, col as u8);
        let cell = cell_in(letter)?;
        let colour = cell.colour;
        if colour != 0 {
            make(alloc, studio, &Edit::Paint { row, col, colour })?;
        }
        if cell.given {
            make(alloc, studio, &Edit::Pin { row, col })?;
        }
    }
    Ok(())
}

/// Appends the rows of a document to a text, with its givens as capitals.
pub fn push_rows(text: &mut String, document: &Document) -> Result<(), AllocError> {
    push_marked(text, &document.picture, &document.givens)
}

/// Appends the rows of a picture to a text.
pub fn push_picture(text: &mut String, picture: &Picture) -> Result<(), AllocError> {
    push_marked(text, picture, &CellSet::empty())
}

// Appends the rows of a picture to a text, with these givens.
fn push_marked(text: &mut String, picture: &Picture, givens: &CellSet) -> Result<(), AllocError> {
    for row in 0..picture.height() {
        if row > 0 {
            text.push('/')?;
        }
        push_row(text, picture, givens, row)?;
    }
    Ok(())
}

// Appends one row to a text.
fn push_row(
    text: &mut String,
    picture: &Picture,
    givens: &CellSet,
    row: u8,
) -> Result<(), AllocError>
    requires { row < length picture.now }
{
    for col in 0..picture.width() {
        let colour = picture.cell(row, col);
        let letter = if givens.has(row, col) {
            capital_of(colour)
        } else {
            letter_of(colour)
        };
        text.push(letter)?;
    }
    Ok(())
}
