//! A picture: rows of cells, each with a colour by its number.

ghost use Rattle.std.specs.Prelude.{◌≡◌, ℕ, ◌*◌, ◌<◌, ◌≤◌, ◌↔◌, List, length, map, slice_index, EachIndex, replicate, IfOk, OnOk, OnErr, IsTrue};
ghost use Rattle.std.specs.List.{flat_map};
ghost use Rattle.picture.specs.Rows.{rows_of, width_of, cell_at, with_cell, line_of, lines_along, HasLine, line_inserted, line_deleted, lines_swapped};
ghost use Rattle.picture.specs.Picture.{IsPicture, AreCells};
ghost use Rattle.picture.specs.Palette.{AreAmong};
ghost use Rattle.picture.specs.Document.{AreColoured, triples_of, with_seen, number_among, renumbered_rows};

use crate::line_edits;
use crate::line_id::{Axis, LineId};
use crate::line_view::LineView;
use crate::palette::Palette;
use std::alloc::{AllocError, Global};
use std::marker::Model;

/// How many rows a picture has at most, and how many columns.
pub const MAX_SIDE: u8 = 120;

/// How many colours a palette has at most, the background among them.
pub const MAX_COLOURS: u8 = 16;

/// A picture: rows of cells, 1 to `MAX_SIDE` each way. A cell has a colour's number from 0 to 15, and 0 is the background.
#[derive(Drop)]
pub struct Picture {
    height: u8,
    width: u8,
    cells: Vec<u8>,
}

impl Model for Picture {
    ghost Value = { List (List ℕ) };

    ghost view = { λ p. rows_of p.height p.width p.cells.items };

    ghost invariant = { λ p. AreCells p.height p.width p.cells.items };
}

#[tactic(auto, using(crate::proofs::FlatLemmas::flat))]
impl Picture {
    /// A picture that is all background, of 1 to `MAX_SIDE` rows and columns.
    pub fn blank(alloc: Global, height: u8, width: u8) -> Result<Picture, AllocError>
        requires has_row { 0 < height }
        requires rows_fit { height ≤ MAX_SIDE }
        requires has_column { 0 < width }
        requires columns_fit { width ≤ MAX_SIDE }
        ensures { IfOk result (λ p. p ≡ replicate height (replicate width 0)) }
    {
        let cells = vec![in alloc; 0u8; height as usize * width as usize]?;
        Ok(Picture::from_cells(height, width, cells))
    }

    /// The picture of these cells, row after row from the top and each from the left.
    pub fn from_cells(height: u8, width: u8, cells: Vec<u8>) -> Picture
        requires { AreCells height width cells.items }
        ensures { result ≡ rows_of height width cells.items }
    {
        Picture {
            height,
            width,
            cells,
        }
    }

    /// A second picture with the same cells.
    pub fn copy(&self) -> Result<Picture, AllocError>
        ensures { IfOk result (λ p. p ≡ self.now) }
    {
        let cells = Vec::from_slice(*self.cells.allocator(), &self.cells)?;
        Ok(Picture::from_cells(self.height, self.width, cells))
    }

    /// How many rows it has.
    pub fn height(&self) -> u8
        ensures value { result ≡ length self.now }
        ensures picture { IsPicture self.now }
    {
        self.height
    }

    /// How many columns it has.
    pub fn width(&self) -> u8
        ensures value { result ≡ width_of self.now }
        ensures picture { IsPicture self.now }
    {
        self.width
    }

    /// How many lines it has along an axis.
    pub fn line_count(&self, axis: Axis) -> u8
        ensures value { result ≡ lines_along axis self.now }
        ensures picture { IsPicture self.now }
    {
        match axis {
            Axis::Across => self.height(),
            Axis::Down => self.width(),
        }
    }

    /// The colour of the cell at a row and a column, from 0.
    pub fn cell(&self, row: u8, col: u8) -> u8
        requires in_rows { row < length self.now }
        requires in_columns { col < width_of self.now }
        ensures value { result ≡ cell_at self.now row col }
        ensures picture { IsPicture self.now }
    {
        self.cells[row as usize * self.width as usize + col as usize]
    }

    /// Gives the cell at a row and a column a colour.
    pub fn set(&mut self, row: u8, col: u8, colour: u8)
        requires in_rows { row < length self.old }
        requires in_columns { col < width_of self.old }
        requires in_colours { colour < MAX_COLOURS }
        ensures { self.new ≡ with_cell self.old row col colour }
    {
        self.cells[row as usize * self.width as usize + col as usize] = colour;
    }

    /// A row or a column. Nothing is copied.
    pub fn line(&self, line: LineId) -> LineView<'_>
        requires { HasLine self.now line }
        ensures value { result ≡ line_of self.now line }
        ensures picture { IsPicture self.now }
    {
        let width = self.width as usize;
        let at = line.at as usize;
        match line.axis {
            Axis::Across => LineView::new(&self.cells, at * width, 1, width),
            Axis::Down => LineView::new(&self.cells, at, width, self.height as usize),
        }
    }

    /// Inserts a line of background before the line at a place, or after the last one. After an error the picture is as before.
    pub fn insert_line(&mut self, line: LineId) -> Result<(), AllocError>
        requires place { line.at ≤ lines_along line.axis self.old }
        requires room { lines_along line.axis self.old < MAX_SIDE }
        ensures ok { OnOk result (self.new ≡ line_inserted self.old line) }
        ensures err { OnErr result (self.new ≡ self.old) }
    {
        let width = self.width as usize;
        let height = self.height as usize;
        let at = line.at as usize;
        match line.axis {
            Axis::Across => {
                line_edits::insert_row(&mut self.cells, width, at)?;
                self.height += 1;
            }
            Axis::Down => {
                line_edits::insert_column(&mut self.cells, height, width, at)?;
                self.width += 1;
            }
        }
        Ok(())
    }

    /// Removes a line, which must not be the only one along its axis.
    pub fn delete_line(&mut self, line: LineId)
        requires line { HasLine self.old line }
        requires others { 1 < lines_along line.axis self.old }
        ensures { self.new ≡ line_deleted self.old line }
    {
        let width = self.width as usize;
        let height = self.height as usize;
        let at = line.at as usize;
        match line.axis {
            Axis::Across => {
                line_edits::delete_row(&mut self.cells, width, at);
                self.height -= 1;
            }
            Axis::Down => {
                line_edits::delete_column(&mut self.cells, height, width, at);
                self.width -= 1;
            }
        }
    }

    /// Exchanges two lines along an axis, which may be the same.
    pub fn swap_lines(&mut self, axis: Axis, i: u8, j: u8)
        requires first { i < lines_along axis self.old }
        requires second { j < lines_along axis self.old }
        ensures { self.new ≡ lines_swapped axis i j self.old }
    {
        let width = self.width as usize;
        let height = self.height as usize;
        match axis {
            Axis::Across => line_edits::swap_rows(&mut self.cells, width, i as usize, j as usize),
            Axis::Down => {
                line_edits::swap_columns(&mut self.cells, height, width, i as usize, j as usize)
            }
        }
    }

    // The same picture with its colours numbered by another palette, to which missing ones are added as they come, row after row.
    pub(crate) fn renumbered(
        &self,
        colours: &Palette,
        palette: &mut Palette,
    ) -> Result<Picture, AllocError>
        requires coloured { AreColoured self.now colours.now }
        requires among { AreAmong palette.old colours.now }
        ensures palette { OnOk result (palette.new
            ≡ with_seen palette.old (flat_map (triples_of colours.now.triples) self.now)) }
        ensures rows { IfOk result
            (λ p. p ≡ renumbered_rows palette.new.triples colours.now.triples self.now) }
        ensures coloured { IfOk result (λ p. AreColoured p palette.new) }
    {
        let _ = colours.len();
        let numbers = numbers_for(*self.cells.allocator(), &self.cells, colours, palette)?;
        let _ = palette.len();
        Ok(Picture::from_cells(self.height, self.width, numbers))
    }

    /// Whether two pictures have the same size and the same cells.
    pub fn same(&self, other: &Picture) -> bool
        ensures { IsTrue result ↔ (self.now ≡ other.now) }
    {
        self.height == other.height
            && self.width == other.width
            && self.cells.as_slice() == other.cells.as_slice()
    }
}

// The numbers that the colours of cells have in a palette, to which missing ones are added as they come.
fn numbers_for(
    alloc: Global,
    cells: &[u8],
    colours: &Palette,
    palette: &mut Palette,
) -> Result<Vec<u8>, AllocError>
    requires coloured { EachIndex cells.now
        (λ k. slice_index cells.now k < length colours.now.triples) }
    requires among { AreAmong palette.old colours.now }
    ensures palette { OnOk result
        (palette.new ≡ with_seen palette.old (triples_of colours.now.triples cells.now)) }
    ensures numbers { IfOk result (λ numbers. numbers.items
        ≡ map (number_among palette.new.triples) (triples_of colours.now.triples cells.now)) }
{
    let mut numbers = Vec::with_capacity(alloc, cells.len())?;
    for cell in cells {
        numbers.push(palette.number_for(colours.rgb(*cell))?)?;
    }
    Ok(numbers)
}
