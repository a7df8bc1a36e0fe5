//! What a search is about: a picture, its givens, and the automata of its clues.

ghost use Rattle.std.specs.Prelude.{◌≡◌, ◌≤◌, IsTrue};
ghost use Rattle.clues.specs.ClueBook.{HasClue};

use crate::atom::bit;
use crate::automaton::Automaton;
use crate::marks::Marks;
use clues::ClueBook;
use line_facts::{LineEngine, Outcome};
use picture::{Axis, CellSet, LineId, MAX_SIDE, Picture};
use std::alloc::{AllocError, Global};
use trail::Cell;

/// The masks of a line's cells. The places after them are unused.
pub(crate) type Masks = [u16; 128];

/// A picture with its givens, and the automata of its clues.
#[derive(Drop)]
pub(crate) struct Board<'a> {
    pub picture: &'a Picture,
    clues: &'a ClueBook,
    givens: &'a CellSet,
    rows: Vec<Automaton>,
    columns: Vec<Automaton>,
}

impl<'a> Board<'a> {
    pub(crate) fn new(
        alloc: Global,
        clues: &'a ClueBook,
        givens: &'a CellSet,
        picture: &'a Picture,
    ) -> Result<Board<'a>, AllocError> {
        Ok(Board {
            picture,
            clues,
            givens,
            rows: automata(alloc, clues, Axis::Across)?,
            columns: automata(alloc, clues, Axis::Down)?,
        })
    }

    /// The facts before any line is evaluated.
    pub(crate) fn marks(&self, alloc: Global) -> Result<Marks, AllocError> {
        let mut marks = Marks::new(alloc, self.height())?;
        for row in 0..self.height() {
            for col in 0..self.width() {
                let cell = Cell { row, col };
                marks.set_left(cell, self.base(cell));
            }
        }
        Ok(marks)
    }

    pub(crate) fn height(&self) -> u8 {
        self.picture.height()
    }

    pub(crate) fn width(&self) -> u8 {
        self.picture.width()
    }

    /// How many cells a line along an axis has.
    pub(crate) fn cells(&self, axis: Axis) -> u8
        ensures { result ≤ MAX_SIDE }
    {
        self.picture.line_count(axis.crossing()).min(MAX_SIDE)
    }

    pub(crate) fn automaton(&self, line: LineId) -> Option<&Automaton> {
        let automata = match line.axis {
            Axis::Across => &self.rows,
            Axis::Down => &self.columns,
        };
        automata.get(usize::from(line.at))
    }

    // Whether there is a clue of a line.
    fn has_clue(&self, line: LineId) -> bool
        ensures { IsTrue result → HasClue self.now.clues.now line }
    {
        match line.axis {
            Axis::Across => line.at < self.clues.height(),
            Axis::Down => line.at < self.clues.width(),
        }
    }

    /// Narrows the masks of a line's cells to the colours that lists that fit its clue have there. If the line has no clue, or is
    /// longer than the engine takes, the masks stay as they are.
    pub(crate) fn narrow<E: LineEngine>(
        &self,
        engine: &mut E,
        line: LineId,
        masks: &mut Masks,
    ) -> Outcome
        ensures calls { E.calls engine.old ≤ E.calls engine.new }
        ensures same_longest { E.longest engine.new ≡ E.longest engine.old }
    {
        let _ = engine.calls();
        let cells = self.cells(line.axis);
        if cells > engine.longest() || !self.has_clue(line) {
            return Outcome::Narrowed;
        }
        let left = *masks;
        let cells = usize::from(cells);
        let clue = self.clues.clue(line);
        engine.narrow(&mut 0, clue, &left[..cells], &mut masks[..cells])
    }

    /// The mask of the picture's colour in a cell, 0 outside the picture.
    pub(crate) fn own(&self, cell: Cell) -> u16 {
        let picture = self.picture;
        if cell.row < picture.height() && cell.col < picture.width() {
            bit(picture.cell(cell.row, cell.col))
        } else {
            0
        }
    }

    /// The colours that a cell can have before any line is evaluated.
    pub(crate) fn base(&self, cell: Cell) -> u16 {
        if cell.row < MAX_SIDE && cell.col < MAX_SIDE && self.givens.has(cell.row, cell.col) {
            self.own(cell)
        } else {
            u16::MAX
        }
    }
}

// The automata of the clues along an axis.
fn automata(alloc: Global, clues: &ClueBook, axis: Axis) -> Result<Vec<Automaton>, AllocError> {
    let mut made = Vec::new(alloc);
    let count = match axis {
        Axis::Across => clues.height(),
        Axis::Down => clues.width(),
    };
    for at in 0..count {
        let clue = clues.clue(LineId { axis, at });
        made.push(Automaton::of(alloc, clue.blocks())?)?;
    }
    Ok(made)
}
