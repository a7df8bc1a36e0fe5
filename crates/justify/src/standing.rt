//! Checking a whole book: whether it is a derivation from given clues.

ghost use Rattle.std.specs.Prelude.{◌≡◌, ℕ, ◌<◌, ◌≤◌, ◌↔◌, length, IsTrue};
ghost use Rattle.picture.specs.Rows.{line_of, width_of, HasLine};
ghost use Rattle.justify.specs.Premises.{Mentions};
ghost use Rattle.justify.specs.Steps.{IsForcedStep};
ghost use Rattle.justify.specs.Book.{IsDerivation};

use crate::book::Book;
use crate::masks::{MOST_CELLS, has_none, leave_rest};
use crate::step::Step;
use clues::{Clue, ClueBook};
use line_facts::LineEngine;

impl Book {
    /// Whether the book is a derivation from these clues, which may be of any size: whether each step's line forces by
    /// its clue all that the step draws, from the step's premises alone. Each step is evaluated once, up to the first that
    /// is not forced. Allocates nothing.
    pub fn stands<E: LineEngine>(&self, engine: &mut E, clues: &ClueBook) -> bool
        requires wide { width_of self.now.base ≤ E.longest engine.old }
        requires tall { length self.now.base ≤ E.longest engine.old }
        ensures stands { IsTrue result ↔ IsDerivation clues.now self.now }
        ensures same_longest { E.longest engine.new ≡ E.longest engine.old }
    {
        let height = self.base().height();
        if height != clues.height() || self.base().width() != clues.width() {
            return false;
        }
        let steps = self.steps();
        for step in steps {
            let cells = self.base().line_len(step.line);
            if !is_forced(engine, clues.clue(step.line), cells, step) {
                return false;
            }
        }
        true
    }
}

// Whether a line of `cells` cells forces all that a step draws from its premises alone.
fn is_forced<E: LineEngine>(engine: &mut E, clue: &Clue, cells: u8, step: &Step) -> bool
    requires long { cells ≤ E.longest engine.old }
    requires short { cells ≤ MOST_CELLS }
    requires premises_inside { (i : ℕ) → Mentions step.now.premises i → i < cells }
    requires drawn_inside { (i : ℕ) → Mentions step.now.drawn i → i < cells }
    ensures forced { IsTrue result ↔ IsForcedStep clue.now cells step.now }
    ensures same_longest { E.longest engine.new ≡ E.longest engine.old }
{
    let mut left = [0; MOST_CELLS];
    let mut out = [0; MOST_CELLS];
    let count = usize::from(cells);
    is_forced_on(
        engine,
        clue,
        cells,
        step,
        &mut left[..count],
        &mut out[..count],
    )
}

// As `is_forced`, with buffers of `cells` masks.
fn is_forced_on<E: LineEngine>(
    engine: &mut E,
    clue: &Clue,
    cells: u8,
    step: &Step,
    left: &mut [u16],
    out: &mut [u16],
) -> bool
    requires left_room { length left.old ≡ cells }
    requires out_room { length out.old ≡ cells }
    requires long { cells ≤ E.longest engine.old }
    requires premises_inside { (i : ℕ) → Mentions step.now.premises i → i < cells }
    requires drawn_inside { (i : ℕ) → Mentions step.now.drawn i → i < cells }
    ensures forced { IsTrue result ↔ IsForcedStep clue.now cells step.now }
    ensures same_longest { E.longest engine.new ≡ E.longest engine.old }
{
    leave_rest(step.premises.as_slice(), left);
    let mut count = 0;
    engine.narrow(&mut count, clue, left, out);
    has_none(step.drawn.as_slice(), out)
}
