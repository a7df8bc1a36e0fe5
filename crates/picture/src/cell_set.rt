//! A set of cells of a picture, in a fixed table.

ghost use Rattle.std.specs.Prelude.{◌≡◌, ℕ, ◌+◌, ◌<◌, ◌↔◌, List, IsTrue};
ghost use Rattle.picture.specs.CellSet.{HasCell, IsCellSet, PutsCell, TakesOutCell, cell_count, no_cells};

use crate::picture::MAX_SIDE;
use std::marker::Model;

// How many rows the table has.
const ROWS: usize = MAX_SIDE as usize;

/// A set of cells, each at a row and a column below `MAX_SIDE`. It allocates nothing.
#[derive(Clone, Copy)]
pub struct CellSet {
    // A mask for each row, with a bit for each column.
    rows: [u128; ROWS],
}

impl Model for CellSet {
    ghost Value = { List ℕ };

    ghost view = { λ s. s.rows };

    ghost invariant = { λ s. IsCellSet s.rows };

    ghost inverse = { λ masks. record { rows = masks } };
}

impl CellSet {
    /// The empty set.
    pub fn empty() -> CellSet
        ensures value { result ≡ no_cells }
        ensures set { IsCellSet result }
        ensures none { (r c : ℕ) → ¬ HasCell result r c }
        ensures count { cell_count result ≡ 0 }
    {
        CellSet { rows: [0; ROWS] }
    }

    /// Whether a cell is in the set.
    pub fn has(&self, row: u8, col: u8) -> bool
        requires in_rows { row < MAX_SIDE }
        requires in_columns { col < MAX_SIDE }
        ensures value { IsTrue result ↔ HasCell self.now row col }
        ensures set { IsCellSet self.now }
    {
        self.rows[row as usize] & (1 << col) != 0
    }

    /// Puts a cell into the set. A set that has it already stays as it is.
    pub fn put(&mut self, row: u8, col: u8)
        requires in_rows { row < MAX_SIDE }
        requires in_columns { col < MAX_SIDE }
        ensures members { PutsCell self.old self.new row col }
        ensures set { IsCellSet self.new }
        ensures known { HasCell self.old row col → self.new ≡ self.old }
        ensures more { ¬ HasCell self.old row col → cell_count self.new ≡ cell_count self.old + 1 }
    {
        self.rows[row as usize] |= 1 << col;
    }

    /// Takes a cell out of the set. A set that does not have it stays as it is.
    pub fn take_out(&mut self, row: u8, col: u8)
        requires in_rows { row < MAX_SIDE }
        requires in_columns { col < MAX_SIDE }
        ensures members { TakesOutCell self.old self.new row col }
        ensures set { IsCellSet self.new }
        ensures absent { ¬ HasCell self.old row col → self.new ≡ self.old }
        ensures fewer { HasCell self.old row col → cell_count self.new + 1 ≡ cell_count self.old }
    {
        self.rows[row as usize] &= !(1 << col);
    }

    /// How many cells the set has.
    pub fn len(&self) -> usize
        ensures value { result ≡ cell_count self.now }
        ensures set { IsCellSet self.now }
    {
        let mut count = 0;
        for mask in &self.rows {
            count += mask.count_ones() as usize;
        }
        count
    }

    /// Whether the set has no cell.
    pub fn is_empty(&self) -> bool
        ensures value { IsTrue result ↔ (self.now ≡ no_cells) }
        ensures set { IsCellSet self.now }
    {
        self.len() == 0
    }
}
