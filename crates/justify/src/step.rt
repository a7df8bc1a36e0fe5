//! A derivation step: a line, its premises, and what it excludes.

ghost use Rattle.std.specs.Prelude.{◌≡◌, ◌<◌, ◌↔◌, ℕ, IfOk, IsTrue};
ghost use Rattle.line_facts.specs.FactSets.{IsOn, row_on, col_on};
ghost use Rattle.justify.specs.Steps.{Draws};

use crate::masks::says;
use crate::premise::Premises;
use picture::{Axis, LineId};
use std::alloc::AllocError;

/// A derivation step: a line that draws exclusions (`drawn`) from exclusions in its own cells (`premises`).
#[derive(Drop)]
pub struct Step {
    pub line: LineId,
    pub premises: Premises,
    pub drawn: Premises,
}

impl Step {
    /// A copy of the step, or an error if out of memory.
    pub fn copy(&self) -> Result<Step, AllocError>
        ensures { IfOk result (λ step. step ≡ self.now) }
    {
        self.moved_to(self.line)
    }

    /// A copy of the step on another line, with the same premises and exclusions.
    pub fn moved_to(&self, line: LineId) -> Result<Step, AllocError>
        ensures { IfOk result (λ step. step ≡ record self.now { line = line }) }
    {
        let premises = self.premises.copy()?;
        let drawn = self.drawn.copy()?;
        Ok(Step {
            line,
            premises,
            drawn,
        })
    }

    /// Whether the step draws that a colour from 0 to 15 is not in a cell.
    pub fn draws(&self, row: u8, col: u8, colour: u8) -> bool
        requires { colour < 16 }
        ensures { IsTrue result ↔ Draws self.now row col colour }
    {
        let place = place_along(self.line, row, col);
        passes(self.line, row, col) && says(self.drawn.as_slice(), place, colour)
    }
}

// Whether a line goes through a cell.
fn passes(line: LineId, row: u8, col: u8) -> bool
    ensures { IsTrue result ↔ IsOn line row col }
{
    match line.axis {
        Axis::Across => row == line.at,
        Axis::Down => col == line.at,
    }
}

// The place along a line of a cell that it goes through.
pub(crate) fn place_along(line: LineId, row: u8, col: u8) -> u8
    ensures { (i : ℕ) → row ≡ row_on line.axis line.at i → col ≡ col_on line.axis line.at i
        → i ≡ result }
{
    match line.axis {
        Axis::Across => col,
        Axis::Down => row,
    }
}
