//! The reason for one exclusion: its step, with the premises that this exclusion alone needs.

ghost use Rattle.std.specs.Prelude.{◌≡◌, ℕ, ◌<◌, ◌≤◌, length, IfOk};
ghost use Rattle.picture.specs.Rows.{width_of};
ghost use Rattle.line_facts.specs.FactSets.{Leaves};
ghost use Rattle.justify.specs.Book.{IsDerivation};
ghost use Rattle.justify.specs.Exclusions.{ForcesFrom};
ghost use Rattle.justify.specs.Premises.{Mentions, Says};
ghost use Rattle.justify.specs.Reasons.{Supports, Reasons};

use crate::book::Book;
use crate::masks::{MOST_CELLS, leave_rest, mark};
use crate::needs::needed_for;
use crate::premise::Premises;
use crate::step::{Step, place_along};
use clues::{Clue, ClueBook};
use picture::LineId;
use std::alloc::AllocError;

/// Why a colour is not in a cell: the step that drew it by its place in the book, the step's line, and premises of that
/// step from which the line forces this one exclusion.
#[derive(Drop)]
pub struct Reason {
    pub step: usize,
    pub line: LineId,
    pub premises: Premises,
}

// An exclusion on a line: a cell by its place, and the colour that it cannot have.
#[derive(Clone, Copy)]
struct Exclusion {
    at: u8,
    colour: u8,
}

impl Book {
    /// Why a colour from 0 to 15 that the base leaves is not in a cell: the step of the book that drew it, and those of its
    /// premises that are needed for this exclusion alone. None where the colour is still left. The book has to be a
    /// derivation from the clues. No line is evaluated.
    pub fn trimmed(
        &self,
        clues: &ClueBook,
        row: u8,
        col: u8,
        colour: u8,
    ) -> Result<Option<Reason>, AllocError>
        requires derivation { IsDerivation clues.now self.now }
        requires in_rows { row < length self.now.base }
        requires in_columns { col < width_of self.now.base }
        requires in_colours { colour < 16 }
        requires not_given { Leaves self.now.base row col colour }
        ensures { IfOk result (Reasons clues.now self.now row col colour) }
    {
        let steps = self.steps();
        let Some(place) = self.reason(row, col, colour) else {
            return Ok(None);
        };
        let step = &steps[place];
        let line = step.line;
        let clue = clues.clue(line);
        let cells = self.base().line_len(line);
        let at = place_along(line, row, col);
        let premises = needed(clue, step, cells, Exclusion { at, colour })?;
        Ok(Some(Reason {
            step: place,
            line,
            premises,
        }))
    }
}

// The premises of a step, on a line of `cells` cells, that are needed for one of the exclusions that it draws.
fn needed(clue: &Clue, step: &Step, cells: u8, exclusion: Exclusion) -> Result<Premises, AllocError>
    requires short { cells ≤ MOST_CELLS }
    requires inside { (i : ℕ) → Mentions step.now.premises i → i < cells }
    requires place { exclusion.at < cells }
    requires in_colours { exclusion.colour < 16 }
    requires forced { ForcesFrom clue.now cells (Says step.now.premises) exclusion.at
        exclusion.colour }
    ensures { IfOk result
        (Supports clue.now cells step.now.premises exclusion.at exclusion.colour) }
{
    let mut left = [0; MOST_CELLS];
    let mut drawn = [0; MOST_CELLS];
    let count = usize::from(cells);
    needed_on(
        clue,
        cells,
        &step.premises,
        exclusion,
        &mut left[..count],
        &mut drawn[..count],
    )
}

// As `needed`, with buffers of `cells` masks.
fn needed_on(
    clue: &Clue,
    cells: u8,
    premises: &Premises,
    exclusion: Exclusion,
    left: &mut [u16],
    drawn: &mut [u16],
) -> Result<Premises, AllocError>
    requires left_room { length left.old ≡ cells }
    requires drawn_room { length drawn.old ≡ cells }
    requires short { cells ≤ MOST_CELLS }
    requires inside { (i : ℕ) → Mentions premises.now i → i < cells }
    requires place { exclusion.at < cells }
    requires in_colours { exclusion.colour < 16 }
    requires forced { ForcesFrom clue.now cells (Says premises.now) exclusion.at
        exclusion.colour }
    ensures { IfOk result
        (Supports clue.now cells premises.now exclusion.at exclusion.colour) }
{
    leave_rest(premises.as_slice(), left);
    mark(drawn, exclusion.at, exclusion.colour);
    needed_for(premises.allocator(), clue, drawn, left)
}
