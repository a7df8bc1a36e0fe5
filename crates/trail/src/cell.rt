//! The place of a cell, and the lines through it.

ghost use Rattle.std.specs.Prelude.{◌≡◌};
ghost use Rattle.line_facts.specs.FactSets.{col_on, row_on};
ghost use Rattle.trail.specs.Through.{NamesLinesAt};

use picture::{Axis, LineId, LineSet, MAX_SIDE};

/// A cell by its row and its column, from 0.
#[derive(Clone, Copy, Debug, PartialEq, Eq)]
pub struct Cell {
    pub row: u8,
    pub col: u8,
}

impl Cell {
    /// The cell at a place of a line.
    pub fn on(line: LineId, place: u8) -> Cell
        ensures row { result.row ≡ row_on line.axis line.at place }
        ensures col { result.col ≡ col_on line.axis line.at place }
    {
        let (row, col) = match line.axis {
            Axis::Across => (line.at, place),
            Axis::Down => (place, line.at),
        };
        Cell { row, col }
    }

    /// The names of the lines through a cell. A cell that no picture has is on none.
    pub fn lines(self) -> LineSet
        ensures { NamesLinesAt result self }
    {
        let mut lines = LineSet::empty();
        if self.row < MAX_SIDE && self.col < MAX_SIDE {
            lines.put(LineId {
                axis: Axis::Across,
                at: self.row,
            });
            lines.put(LineId {
                axis: Axis::Down,
                at: self.col,
            });
        }
        lines
    }
}
