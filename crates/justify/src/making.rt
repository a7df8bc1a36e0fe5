//! Making the next step: all that a line newly forces, from premises none of which can be left out.

ghost use Rattle.std.specs.Prelude.{◌≡◌, ◌≤◌, length};
ghost use Rattle.picture.specs.Rows.{line_of, HasLine};
ghost use Rattle.line_facts.specs.Counts.{Counts};
ghost use Rattle.justify.specs.NewSteps.{Makes};

use crate::book::Book;
use crate::fault::StepFault;
use crate::masks::{MOST_CELLS, keep_lost};
use crate::needs::needed_for;
use crate::premise::Premises;
use crate::step::Step;
use clues::Clue;
use line_facts::{LineEngine, Meter, Outcome};
use picture::LineId;

impl Book {
    /// The next step of a line, with all that its clue newly forces there. None where it forces nothing new, Dead where
    /// no list of colours fits the line. Each premise has all colours that are excluded in its cell, and none of their
    /// cells can be left out. The contract allows any such choice; tests check that it is the one found by leaving out
    /// cell after cell from the line's start. The line is evaluated once, even where memory runs out, and premises are
    /// left out without trials.
    pub fn make_step<E: LineEngine>(
        &self,
        engine: &mut E,
        clue: &Clue,
        line: LineId,
        meter: &mut Meter,
    ) -> Result<Option<Step>, StepFault>
        requires line { HasLine self.now.facts line }
        requires short { length (line_of self.now.facts line) ≤ E.longest engine.old }
        ensures makes { Makes clue.now line (line_of self.now.facts line) result }
        ensures counts { Counts 1 0 meter.old meter.new (E.calls engine.old) (E.calls engine.new) }
        ensures same_longest { E.longest engine.new ≡ E.longest engine.old }
    {
        let _trials = meter.trials;
        let mut left = [0; MOST_CELLS];
        let mut drawn = [0; MOST_CELLS];
        let cells = usize::from(self.facts().line_len(line));
        let left = &mut left[..cells];
        let drawn = &mut drawn[..cells];
        self.facts().copy_line(line, left);
        match engine.narrow(&mut meter.evaluations, clue, left, drawn) {
            Outcome::Dead => return Err(StepFault::Dead),
            Outcome::Narrowed => {}
        }
        if !keep_lost(left, drawn) {
            return Ok(None);
        }
        let lost = Premises::from_masks(self.allocator(), drawn)?;
        let premises = needed_for(self.allocator(), clue, drawn, left)?;
        Ok(Some(Step {
            line,
            premises,
            drawn: lost,
        }))
    }
}
