//! Facts: the candidates of each cell, as a mask of the colours left.

ghost use Rattle.std.specs.Prelude.{◌≡◌, ℕ, ◌+◌, ◌*◌, ◌<◌, ◌≤◌, ◌↔◌, List, length, slice_index, IfOk, IsTrue, MatchOption, false};
ghost use Rattle.picture.specs.Rows.{rows_of, width_of, row_at, cell_at, line_of, with_cell, HasLine};
ghost use Rattle.line_facts.specs.Masks.{IsOnly};
ghost use Rattle.line_facts.specs.FactSets.{AreMasks, HoldsLine, IsFacts, Leaves, Excludes, ExcludesAt, nothing_excluded};

use picture::{Axis, LineId, MAX_SIDE};
use std::alloc::{AllocError, Global};
use std::marker::Model;

/// What is known of the cells of a picture: for each cell a mask of the colours left there, in which bit k stands for
/// colour k. Every other colour is excluded in that cell.
#[derive(Drop)]
pub struct Facts {
    height: u8,
    width: u8,
    masks: Vec<u16>,
}

impl Model for Facts {
    ghost Value = { List (List ℕ) };

    ghost view = { λ f. rows_of f.height f.width f.masks.items };

    ghost invariant = { λ f. AreMasks f.height f.width f.masks.items };
}

#[tactic(auto, using(crate::proofs::FactLemmas::flat))]
impl Facts {
    /// The facts that exclude nothing, of 1 to 120 rows and columns.
    pub fn none(alloc: Global, height: u8, width: u8) -> Result<Facts, AllocError>
        requires has_row { 0 < height }
        requires rows_fit { height ≤ MAX_SIDE }
        requires has_column { 0 < width }
        requires columns_fit { width ≤ MAX_SIDE }
        ensures value { IfOk result (λ f. f ≡ nothing_excluded height width) }
        ensures all_left { IfOk result
            (λ f. (row col k : ℕ) → row < height → col < width → k < 16 → Leaves f row col k) }
    {
        let masks = vec![in alloc; u16::MAX; height as usize * width as usize]?;
        Ok(Facts::from_masks(height, width, masks))
    }

    // The facts with these masks, row after row.
    fn from_masks(height: u8, width: u8, masks: Vec<u16>) -> Facts
        requires { AreMasks height width masks.items }
        ensures { result ≡ rows_of height width masks.items }
    {
        Facts {
            height,
            width,
            masks,
        }
    }

    /// A copy of the facts, with the same allocator.
    pub fn copy(&self) -> Result<Facts, AllocError>
        ensures { IfOk result (λ f. f ≡ self.now) }
    {
        let masks = Vec::from_slice(*self.masks.allocator(), &self.masks)?;
        Ok(Facts::from_masks(self.height, self.width, masks))
    }

    /// How many rows there are.
    pub fn height(&self) -> u8
        ensures value { result ≡ length self.now }
        ensures facts { IsFacts self.now }
    {
        self.height
    }

    /// How many columns there are.
    pub fn width(&self) -> u8
        ensures value { result ≡ width_of self.now }
        ensures facts { IsFacts self.now }
    {
        self.width
    }

    /// The colours left in a cell: bit k is set where colour k is.
    pub fn left(&self, row: u8, col: u8) -> u16
        requires in_rows { row < length self.now }
        requires in_columns { col < width_of self.now }
        ensures value { result ≡ cell_at self.now row col }
        ensures facts { IsFacts self.now }
    {
        let place = row as usize * self.width as usize + col as usize;
        self.masks[place]
    }

    /// The colours left in all cells, row after row.
    pub fn masks(&self) -> &[u16]
        ensures count { length result.now ≡ length self.now * width_of self.now }
        ensures cells { (row col : ℕ) → row < length self.now → col < width_of self.now
            → slice_index result.now (row * width_of self.now + col) ≡ cell_at self.now row col }
    {
        self.masks.as_slice()
    }

    /// Whether a colour is excluded in a cell.
    pub fn excluded(&self, row: u8, col: u8, colour: u8) -> bool
        requires in_rows { row < length self.now }
        requires in_columns { col < width_of self.now }
        requires in_colours { colour < 16 }
        ensures excluded { IsTrue result ↔ Excludes self.now row col colour }
        ensures left { (result ≡ false) ↔ Leaves self.now row col colour }
    {
        self.left(row, col) & (1 << colour) == 0
    }

    /// Excludes colours in a cell, those whose bits are set in `colours`.
    pub fn exclude(&mut self, row: u8, col: u8, colours: u16)
        requires in_rows { row < length self.old }
        requires in_columns { col < width_of self.old }
        ensures { ExcludesAt self.old self.new row col colours }
    {
        let left = self.left(row, col);
        self.set_left(row, col, left & !colours);
    }

    /// The colour of a cell that has only one left, and `None` for other cells.
    pub fn shown(&self, row: u8, col: u8) -> Option<u8>
        requires in_rows { row < length self.now }
        requires in_columns { col < width_of self.now }
        ensures { MatchOption
            result
            ((k : ℕ) → IsOnly (cell_at self.now row col) k → ⊥)
            (λ k. IsOnly (cell_at self.now row col) k) }
    {
        only_colour(self.left(row, col))
    }

    /// Whether other facts leave the same colours in each cell of a row.
    pub fn same_row(&self, other: &Facts, row: u8) -> bool
        requires here { row < length self.now }
        requires there { row < length other.now }
        ensures { IsTrue result ↔ (row_at self.now row ≡ row_at other.now row) }
    {
        self.row_masks(row) == other.row_masks(row)
    }

    // The masks of a row, from the left.
    pub(crate) fn row_masks(&self, row: u8) -> &[u16]
        requires { row < length self.now }
        ensures { result.now ≡ row_at self.now row }
    {
        let start = row as usize * self.width as usize;
        &self.masks[start..start + self.width as usize]
    }

    // Gives the cells of a line other masks, from the left or from the top.
    pub(crate) fn write_line(&mut self, line: LineId, masks: &[u16])
        requires line { HasLine self.old line }
        requires whole { length masks.now ≡ length (line_of self.old line) }
        ensures { HoldsLine line self.old self.new masks.now }
    {
        match line.axis {
            Axis::Across => write_row(&mut self.masks, self.height, self.width, line, masks),
            Axis::Down => write_column(&mut self.masks, self.height, self.width, line, masks),
        }
    }

    /// Gives a cell another mask of colours left, in which bit k stands for colour k. A search uses it to backtrack.
    pub fn set_left(&mut self, row: u8, col: u8, mask: u16)
        requires in_rows { row < length self.old }
        requires in_columns { col < width_of self.old }
        ensures { self.new ≡ with_cell self.old row col mask }
    {
        self.masks[row as usize * self.width as usize + col as usize] = mask;
    }
}

// Gives the cells of a row other masks, in the flat list of all rows.
fn write_row(cells: &mut [u16], height: u8, width: u8, line: LineId, masks: &[u16])
    requires axis { line.axis ≡ Axis.Across }
    requires cells { AreMasks height width cells.old }
    requires line { HasLine (rows_of height width cells.old) line }
    requires whole { length masks.now ≡ length (line_of (rows_of height width cells.old) line) }
    ensures cells { AreMasks height width cells.new }
    ensures holds { HoldsLine line (rows_of height width cells.old) (rows_of height width cells.new)
        masks.now }
{
    for col in 0..width {
        cells[usize::from(line.at) * usize::from(width) + usize::from(col)] = masks[usize::from(
            col,
        )];
    }
}

// The same for a column.
fn write_column(cells: &mut [u16], height: u8, width: u8, line: LineId, masks: &[u16])
    requires axis { line.axis ≡ Axis.Down }
    requires cells { AreMasks height width cells.old }
    requires line { HasLine (rows_of height width cells.old) line }
    requires whole { length masks.now ≡ length (line_of (rows_of height width cells.old) line) }
    ensures cells { AreMasks height width cells.new }
    ensures holds { HoldsLine line (rows_of height width cells.old) (rows_of height width cells.new)
        masks.now }
{
    for row in 0..height {
        cells[usize::from(row) * usize::from(width) + usize::from(line.at)] = masks[usize::from(
            row,
        )];
    }
}

#[tactic(auto, using(crate::proofs::MaskLemmas::only))]
/// The only colour of a mask, where it has just one.
pub fn only_colour(mask: u16) -> Option<u8>
    ensures { MatchOption result ((k : ℕ) → IsOnly mask k → ⊥) (λ k. IsOnly mask k) }
{
    if mask == 0 {
        return None;
    }
    let lowest = mask.trailing_zeros();
    if mask == 1 << lowest {
        Some(lowest as u8)
    } else {
        None
    }
}
