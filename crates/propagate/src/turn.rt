//! The turn of one line in a schedule or a closing: its step is put into the book.

ghost use Rattle.std.specs.Prelude.{◌≡◌, ◌↔◌, ◌<◌, ◌≤◌, ℕ, List, length, IfOk};
ghost use Rattle.picture.specs.LineSet.{HasName, name_count};
ghost use Rattle.picture.specs.Rows.{line_of, HasLine};
ghost use Rattle.clues.specs.declared.block.Block.{Block};
ghost use Rattle.clues.specs.ClueBook.{Clues};
ghost use Rattle.line_facts.specs.FactSets.{IsFacts};
ghost use Rattle.justify.specs.declared.fault.StepFault.TheVariants as step;
ghost use Rattle.justify.specs.Book.{IsAccount};
ghost use Rattle.justify.specs.NewSteps.{Makes};
ghost use Rattle.justify.specs.Premises.{ArePremises, Mentions};
ghost use Rattle.propagate.specs.Turns.{CrossesDrawn, GivesNext, TakesTurn, Turn};
ghost use Rattle.fixpoint.specs.declared.fault.CloseFault.TheVariants as fault;

use fixpoint::CloseFault;
use justify::{Book, Step, StepFault};
use picture::{LineId, LineSet, MAX_SIDE};

// Appends the step that the line gave, if any, and says which lines cross it where it draws.
pub(crate) fn take_turn(
    book: &mut Book,
    line: LineId,
    made: Result<Option<Step>, StepFault>,
) -> Result<LineSet, CloseFault>
    requires line { HasLine book.old.facts line }
    requires made { (clue : List Block) × Makes clue line (line_of book.old.facts line) made }
    ensures turn { (clues : Clues) → GivesNext clues line book.old made
        → IfOk result (λ _. TakesTurn clues line book.old book.new) }
    ensures comes_to { (clues : Clues) → GivesNext clues line book.old made
        → IfOk result (Turn clues line book.old book.new) }
    ensures dead { result ≡ Err fault.Dead → made ≡ Err step.Dead }
    ensures account { IsAccount book.old }
    ensures facts { IsFacts book.old.facts }
{
    let _ = book.facts().line_len(line);
    match made {
        Ok(None) => Ok(LineSet::empty()),
        Ok(Some(step)) => {
            let changed = crossing_drawn(&step);
            book.add_step(step)?;
            Ok(changed)
        }
        Err(StepFault::Dead) => Err(CloseFault::Dead),
        Err(StepFault::Memory) => Err(CloseFault::Memory),
    }
}

// The lines that cross a step's line at the cells on which it draws.
fn crossing_drawn(step: &Step) -> LineSet
    requires { (i : ℕ) → Mentions step.now.drawn i → i < MAX_SIDE }
    ensures names { (other : LineId) → HasName result other ↔ CrossesDrawn step.now other }
    ensures few { name_count result ≤ length step.now.drawn }
    ensures premises { ArePremises step.now.drawn }
{
    let mut lines = LineSet::empty();
    for premise in step.drawn.as_slice() {
        lines.put(step.line.crossing(premise.at));
    }
    lines
}
