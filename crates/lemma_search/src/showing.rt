//! The picture that a search shows: the colours that are settled, and the known picture's elsewhere.

use crate::atom::{first_colour, is_settled};
use crate::automaton::START;
use crate::search::Search;
use picture::{Axis, LineId, MAX_COLOURS, Picture};
use std::alloc::{AllocError, Global};
use trail::Cell;

impl<'a> Search<'a> {
    // The mask of the colour shown in a cell: 0 if it is open and the picture's colour is excluded.
    fn shown(&self, cell: Cell) -> u16 {
        let left = self.marks.left(cell);
        if is_settled(left) {
            left
        } else {
            left & self.board.own(cell)
        }
    }

    // Whether a line that is shown has its clue.
    fn has_clue(&self, line: LineId) -> bool {
        let Some(automaton) = self.board.automaton(line) else {
            return false;
        };
        let mut states = START;
        for place in 0..self.board.cells(line.axis) {
            states = automaton.forward(self.shown(Cell::on(line, place)), states);
        }
        states & automaton.ends != 0
    }

    // A line that does not have its clue. The one that was found before is tried first.
    fn broken_line(&self) -> Option<LineId> {
        if let Some(line) = self.broken
            && !self.has_clue(line)
        {
            return Some(line);
        }
        for axis in [Axis::Across, Axis::Down] {
            for at in 0..self.board.picture.line_count(axis) {
                let line = LineId { axis, at };
                if !self.has_clue(line) {
                    return Some(line);
                }
            }
        }
        None
    }

    /// The picture that is shown, if it differs from the known one and each line has its clue.
    pub(crate) fn other(&mut self, alloc: Global) -> Result<Option<Picture>, AllocError> {
        if self.differing == 0 {
            return Ok(None);
        }
        self.broken = self.broken_line();
        if self.broken.is_some() {
            return Ok(None);
        }
        let mut picture = self.board.picture.copy()?;
        for row in 0..self.board.height() {
            for col in 0..self.board.width() {
                let colour = first_colour(self.shown(Cell { row, col }));
                if row < picture.height() && col < picture.width() && colour < MAX_COLOURS {
                    picture.set(row, col, colour);
                }
            }
        }
        Ok(Some(picture))
    }

    /// Whether each cell has one colour left.
    pub(crate) fn is_settled(&self) -> bool {
        for row in 0..self.board.height() {
            for col in 0..self.board.width() {
                if !is_settled(self.marks.left(Cell { row, col })) {
                    return false;
                }
            }
        }
        true
    }
}
