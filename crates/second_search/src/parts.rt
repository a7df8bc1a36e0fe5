//! The parts of facts: connected components of open cells, which can be searched apart, as no line goes through two.

ghost use Rattle.std.specs.Prelude.{◌≡◌, ℕ, ◌+◌, ◌<◌, ◌↔◌, length, IfOk, OnOk, IsTrue};
ghost use Rattle.picture.specs.Rows.{width_of};
ghost use Rattle.second_search.specs.GrownParts.{ArePartsAbove, HoldsCell, IsFirstOpen};
ghost use Rattle.second_search.specs.Parts.{AreParts, part_at};

use line_facts::Facts;
use picture::{CellSet, MAX_SIDE};
use std::alloc::{AllocError, Global};
use std::marker::Model;

mod growth;
mod open_cells;

use growth::part_of;
use open_cells::first_open;
use trail::Cell;

/// The parts of facts. A cell is open where more than one colour is left, and two open cells are in one part where a chain of
/// open cells joins them, each sharing a row or a column with the next. The parts are in the order of their first cells, in row
/// order.
#[derive(Drop)]
pub struct Parts {
    parts: Vec<CellSet>,
}

impl Model for Parts {
    ghost use Rattle.std.specs.Prelude.{ℕ, List};

    ghost Value = { List (List ℕ) };

    ghost view = { λ p. p.parts.items };
}

impl Parts {
    /// Finds the parts of facts. Each line is visited for at most one part.
    pub fn of(alloc: Global, facts: &Facts) -> Result<Parts, AllocError>
        ensures { IfOk result (AreParts facts.now) }
    {
        let mut parts = Parts {
            parts: Vec::new(alloc),
        };
        for row in 0..facts.height() {
            match first_open(facts, row) {
                Some(cell) => parts.take_in(facts, cell)?,
                None => {}
            }
        }
        Ok(parts)
    }

    // Adds the part of the first open cell of a row, unless it was added before.
    fn take_in(&mut self, facts: &Facts, cell: Cell) -> Result<(), AllocError>
        requires in_rows { cell.row < length facts.now }
        requires first { IsFirstOpen facts.now cell.row cell.col }
        requires above { ArePartsAbove facts.now self.old cell.row }
        ensures { OnOk result (ArePartsAbove facts.now self.new (cell.row + 1)) }
    {
        let _ = facts.height();
        if !self.has(cell) {
            self.parts.push(part_of(facts, cell))?;
        }
        Ok(())
    }

    // Whether a cell is in one of the parts.
    fn has(&self, cell: Cell) -> bool
        requires in_rows { cell.row < MAX_SIDE }
        requires in_columns { cell.col < MAX_SIDE }
        ensures { IsTrue result ↔ HoldsCell self.now cell.row cell.col }
    {
        for part in &self.parts {
            if part.has(cell.row, cell.col) {
                return true;
            }
        }
        false
    }

    /// How many parts there are.
    pub fn len(&self) -> usize
        ensures { result ≡ length self.now }
    {
        self.parts.len()
    }

    /// The cells of a part, by its place in the order of the parts, from 0.
    pub fn cells(&self, i: usize) -> &CellSet
        requires { i < length self.now }
        ensures { result.now ≡ part_at self.now i }
    {
        &self.parts[i]
    }
}
