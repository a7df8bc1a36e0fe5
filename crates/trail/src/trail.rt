//! The trail: the facts of the current branch, and a stack of notes that record which branches wait.

ghost use Rattle.std.specs.Prelude.{◌≡◌, ℕ, ◌<◌, [], ◌∷◌, ◌++◌, length, reverse, IfOk, OnOk, IfSome};
ghost use Rattle.picture.specs.Rows.{width_of, cell_at, with_cell};
ghost use Rattle.line_facts.specs.FactSets.{IsFacts, SameShape};
ghost use Rattle.line_facts.specs.Branches.{branches};
ghost use Rattle.trail.specs.Trail.{place, places, trail_of, AreInside, AreOthersSame, CanBegin, GoesOn, IsInside, IsRowTaken, PutsBack};

use crate::cell::Cell;
use crate::note::{CellMask, Note, Wait};
use crate::rows::has_row;
use line_facts::Facts;
use picture::LineSet;
use std::alloc::{AllocError, Global};
use std::marker::Model;

/// The trail by which a search or a walk over a tree backtracks: the facts of the current branch, called the facts at
/// hand, and notes that record which other branches wait, the newest last.
///
/// A cell's mask is noted only where it changes, and a branch only while it has colours to try. So where `advance` follows each
/// split, and colours are only taken from cells, the number of notes is bounded by the cells and colours, however deep a search
/// goes. After a call has run out of memory, a trail can only be dropped.
#[derive(Drop)]
pub struct Trail {
    facts: Facts,
    notes: Vec<Note>,
}

impl Model for Trail {
    ghost use Rattle.std.specs.Prelude.{length, reverse};
    ghost use Rattle.picture.specs.Rows.{width_of};
    ghost use Rattle.trail.specs.Trail.{AreInside, Trailed, cells_held, trail_of, waiting};

    ghost Value = { Trailed };

    ghost view = { λ p. trail_of p.facts (waiting p.facts (reverse p.notes.items)) (cells_held (reverse p.notes.items)) };

    ghost invariant = { λ p. AreInside (length p.facts) (width_of p.facts) (reverse p.notes.items) };
}

impl Trail {
    /// A trail with these facts at hand, on which no branch waits.
    pub fn start(alloc: Global, facts: Facts) -> Trail
        ensures { result ≡ trail_of facts [] [] }
    {
        Trail {
            facts,
            notes: Vec::new(alloc),
        }
    }

    /// The facts of the current branch.
    pub fn at_hand(&self) -> &Facts
        ensures { result.now ≡ self.now.at_hand }
    {
        &self.facts
    }

    /// Replaces the facts at hand by `settled`, and notes each cell that changes. Both have the same shape, and the same rows
    /// where `rows` does not name them.
    pub fn narrow(&mut self, settled: &Facts, rows: &LineSet) -> Result<(), AllocError>
        requires same_shape { SameShape self.old.at_hand settled.now }
        requires others { AreOthersSame self.old.at_hand settled.now rows.now }
        ensures { OnOk result (self.new ≡ trail_of settled.now self.old.behind self.old.cells) }
    {
        for row in 0..settled.height() {
            self.narrow_row(settled, rows, row)?;
        }
        Ok(())
    }

    // Replaces a row of the facts at hand by that of `settled`.
    fn narrow_row(&mut self, settled: &Facts, rows: &LineSet, row: u8) -> Result<(), AllocError>
        requires same_shape { SameShape self.old.at_hand settled.now }
        requires others { AreOthersSame self.old.at_hand settled.now rows.now }
        requires in_rows { row < length settled.now }
        ensures behind { OnOk result (self.new.behind ≡ self.old.behind) }
        ensures cells { OnOk result (self.new.cells ≡ self.old.cells) }
        ensures row { OnOk result (IsRowTaken self.old.at_hand settled.now self.new.at_hand row) }
    {
        let width = settled.width();
        if !has_row(rows, row) || self.facts.same_row(settled, row) {
            return Ok(());
        }
        for col in 0..width {
            self.hold(row, col, settled.left(row, col))?;
        }
        Ok(())
    }

    /// Sets the mask of a cell of the facts at hand, and notes the mask that it had where the two differ.
    #[inline]
    pub fn hold(&mut self, row: u8, col: u8, held: u16) -> Result<(), AllocError>
        requires in_rows { row < length self.old.at_hand }
        requires in_columns { col < width_of self.old.at_hand }
        ensures holds { OnOk result (self.new
            ≡ trail_of (with_cell self.old.at_hand row col held) self.old.behind self.old.cells) }
        ensures facts { IsFacts self.old.at_hand }
    {
        let mask = self.facts.left(row, col);
        if mask != held {
            self.notes.push(Note::Restore(CellMask { row, col, mask }))?;
            self.facts.set_left(row, col, held);
        }
        Ok(())
    }

    /// Splits a cell: a branch for each colour left in it waits, before those that waited already.
    pub fn split(&mut self, cell: Cell) -> Result<(), AllocError>
        requires in_rows { cell.row < length self.old.at_hand }
        requires in_columns { cell.col < width_of self.old.at_hand }
        ensures { OnOk result (self.new ≡ trail_of self.old.at_hand
            (branches self.old.at_hand cell.row cell.col
            (cell_at self.old.at_hand cell.row cell.col) ++ self.old.behind)
            (places cell.row cell.col (cell_at self.old.at_hand cell.row cell.col)
            ++ self.old.cells)) }
    {
        let Cell { row, col } = cell;
        let mask = self.facts.left(row, col);
        self.push_branch(CellMask { row, col, mask })
    }

    #[tactic(auto, using(crate::proofs::NoteLemmas::no_branches))]
    // Puts the branches of a cell for the colours of a mask before the facts that wait.
    fn push_branch(&mut self, cell: CellMask) -> Result<(), AllocError>
        requires in_rows { cell.row < length self.old.at_hand }
        requires in_columns { cell.col < width_of self.old.at_hand }
        ensures { OnOk result (self.new ≡ trail_of self.old.at_hand
            (branches self.old.at_hand cell.row cell.col cell.mask ++ self.old.behind)
            (places cell.row cell.col cell.mask ++ self.old.cells)) }
    {
        if cell.mask != 0 {
            self.notes.push(Note::Branch(Wait::Each(cell)))?;
        }
        Ok(())
    }

    /// Adds one branch before those that wait: the facts at hand with a cell held to the colours of a mask.
    pub fn part(&mut self, row: u8, col: u8, held: u16) -> Result<(), AllocError>
        requires in_rows { row < length self.old.at_hand }
        requires in_columns { col < width_of self.old.at_hand }
        ensures { OnOk result (self.new ≡ trail_of self.old.at_hand
            (with_cell self.old.at_hand row col held ∷ self.old.behind)
            (place row col ∷ self.old.cells)) }
    {
        let cell = CellMask {
            row,
            col,
            mask: held,
        };
        self.notes.push(Note::Branch(Wait::Whole(cell)))?;
        Ok(())
    }

    /// Drops the facts at hand and begins the next branch that waits. Returns the cell that is held in it, or None exactly
    /// where no branch waits.
    pub fn advance(&mut self) -> Result<Option<Cell>, AllocError>
        ensures goes_on { IfOk result (GoesOn self.old self.new) }
        ensures same_shape { IfOk result (λ _. SameShape self.old.at_hand self.new.at_hand) }
    {
        let Some(wait) = put_back(&mut self.facts, &mut self.notes) else {
            return Ok(None);
        };
        let cell = match wait {
            Wait::Each(cell) => {
                self.begin(cell)?;
                cell
            }
            Wait::Whole(cell) => {
                self.hold(cell.row, cell.col, cell.mask)?;
                cell
            }
        };
        let CellMask { row, col, .. } = cell;
        Ok(Some(Cell { row, col }))
    }

    // Holds a cell to the lowest colour of a mask. The branches of its other colours wait before those that waited already.
    fn begin(&mut self, cell: CellMask) -> Result<(), AllocError>
        requires inside { IsInside (length self.old.at_hand) (width_of self.old.at_hand) cell }
        requires some { 0 < cell.mask }
        ensures waits { OnOk result (branches self.old.at_hand cell.row cell.col cell.mask
            ++ self.old.behind ≡ self.new.at_hand ∷ self.new.behind) }
        ensures held { OnOk result (places cell.row cell.col cell.mask ++ self.old.cells
            ≡ place cell.row cell.col ∷ self.new.cells) }
        ensures same_shape { OnOk result (SameShape self.old.at_hand self.new.at_hand) }
    {
        let lowest = 1 << cell.mask.trailing_zeros();
        let mask = cell.mask & !lowest;
        self.push_branch(CellMask { mask, ..cell })?;
        self.hold(cell.row, cell.col, lowest)?;
        Ok(())
    }
}

// Restores masks by the newest notes, down to the first note of branches that wait, which is popped too.
fn put_back(facts: &mut Facts, notes: &mut Vec<Note>) -> Option<Wait>
    requires { AreInside (length facts.old) (width_of facts.old) (reverse notes.old.items) }
    ensures puts_back { PutsBack facts.old (reverse notes.old.items) facts.new
        (reverse notes.new.items) result }
    ensures inside { AreInside (length facts.new) (width_of facts.new) (reverse notes.new.items) }
    ensures same_shape { SameShape facts.old facts.new }
    ensures some { IfSome result (λ wait. CanBegin (length facts.new) (width_of facts.new) wait) }
{
    while let Some(note) = notes.pop() {
        match note {
            Note::Restore(cell) => facts.set_left(cell.row, cell.col, cell.mask),
            Note::Branch(Wait::Whole(cell)) => return Some(Wait::Whole(cell)),
            Note::Branch(Wait::Each(cell)) => {
                if cell.mask != 0 {
                    return Some(Wait::Each(cell));
                }
            }
        }
    }
    None
}
