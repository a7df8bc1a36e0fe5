//! Decisions of a search: on the most active colour of an open cell.

use crate::atom::{Atom, Literal, bit, has, is_settled, spot};
use crate::marks::Reason;
use crate::search::Search;
use picture::MAX_COLOURS;
use std::alloc::{AllocError, Global};
use trail::Cell;

impl<'a> Search<'a> {
    /// Puts the atoms that stand for the colours of open cells into the order, and prefers other colours than the picture's.
    pub(crate) fn begin(&mut self, alloc: Global) -> Result<(), AllocError> {
        self.first = Vec::from_slice(alloc, &self.marks.left)?;
        for row in 0..self.board.height() {
            for col in 0..self.board.width() {
                self.begin_cell(Cell { row, col })?;
            }
        }
        Ok(())
    }

    fn begin_cell(&mut self, cell: Cell) -> Result<(), AllocError> {
        let left = self.marks.left(cell);
        if is_settled(left) {
            return Ok(());
        }
        for colour in 0..MAX_COLOURS {
            let atom = Atom { cell, colour };
            if !has(left, colour) {
                continue;
            }
            let is_own = has(self.board.own(cell), colour);
            self.prefer(atom, !is_own);
            if self.standing(atom) == atom {
                self.order.put(atom)?;
            }
        }
        Ok(())
    }

    // The most active atom of an open cell.
    fn next_atom(&mut self) -> Option<Atom> {
        for _ in 0..u32::MAX {
            let atom = self.order.take()?;
            let left = self.marks.left(atom.cell);
            if has(left, atom.colour) && !is_settled(left) {
                return Some(atom);
            }
        }
        None
    }

    // Whether the decision of an atom chooses its colour: if the search aims at it, or where there is no aim, if it is preferred.
    fn chooses(&self, atom: Atom) -> bool {
        match self.aim.get(spot(atom.cell)).copied() {
            Some(aim) if aim != 0 => has(aim, atom.colour),
            _ => self.prefers.get(atom.place()).copied().unwrap_or(false),
        }
    }

    /// At a conflict, aims at the colours that were settled before the last decision, if the search had never come that far.
    pub(crate) fn note_aim(&mut self) {
        let before = self.marks.level().saturating_sub(1);
        let reached = self.marks.before_level(before).unwrap_or(0);
        if reached <= self.furthest {
            return;
        }
        self.furthest = reached;
        for at in 0..self.aim.len() {
            let left = self.marks.left.get(at).copied().unwrap_or(0);
            self.set_aim(at, if is_settled(left) { left } else { 0 });
        }
        for at in reached..self.marks.count() {
            if let Some(event) = self.marks.event(at) {
                self.set_aim(spot(event.gone.cell), 0);
            }
        }
    }

    fn set_aim(&mut self, at: usize, colours: u16) {
        if let Some(aim) = self.aim.get_mut(at) {
            *aim = colours;
        }
    }

    // The colours that the decision of an atom excludes. The first decision denies the picture's colour, so that lemmas follow from the
    // clues and the givens alone.
    fn denied(&self, atom: Atom) -> u16 {
        let left = self.marks.left(atom.cell);
        if self.marks.is_at_root() {
            left & self.board.own(atom.cell)
        } else if self.chooses(atom) {
            left & !bit(atom.colour)
        } else {
            bit(atom.colour)
        }
    }

    /// Begins a level with a decision. False if there is nothing to decide.
    pub(crate) fn decide(&mut self) -> Result<bool, AllocError> {
        let Some(atom) = self.next_atom() else {
            return Ok(false);
        };
        let colours = self.denied(atom);
        if colours == 0 || colours == self.marks.left(atom.cell) {
            return Ok(false);
        }
        // Other colours of the cell may still be open.
        if self.marks.is_at_root() {
            self.order.put(atom)?;
        }
        self.marks.begin_level()?;
        let gone = Literal {
            cell: atom.cell,
            colours,
        };
        let since = self.marks.count();
        self.exclude(gone, Reason::Decision, since)?;
        Ok(true)
    }
}
