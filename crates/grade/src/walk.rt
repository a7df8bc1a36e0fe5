//! A walk through the turns of a run, from look to look.

ghost use Rattle.std.specs.Prelude.{◌≡◌, ℕ, ◌+◌, ◌*◌, ◌^◌, ◌<◌, ◌≤◌, ◌↔◌, List, [], length, IsTrue, IfNone, IfSome, OnSome, MatchOption};
ghost use Rattle.line_facts.specs.Counts.{counted};
ghost use Rattle.line_facts.specs.Masks.{Masks};
ghost use Rattle.picture.specs.LineSet.{HasName};
ghost use Rattle.picture.specs.Rows.{HasLine};
ghost use Rattle.clues.specs.ClueBook.{Clues, HasClue, clue_at};
ghost use Rattle.fixpoint.specs.ClosedFacts.{AreClosable};
ghost use Rattle.fixpoint.specs.LeftToDo.{left_to_do};
ghost use Rattle.grade.specs.Looks.{HasOpenCell, Look};
ghost use Rattle.grade.specs.Needs.{AreLeft};
ghost use Rattle.grade.specs.Walking.{CanWalk, ComesToLook, Looks, Walks};

use crate::seen::{LineMasks, Seen};
use crate::turn::Turn;
use clues::ClueBook;
use fixpoint::all_lines;
use line_facts::{Facts, LineEngine, force_crossing};
use picture::{LineId, LineSet};

/// A walk through the turns of a run: the lines that wait to be looked at, and whose turn is next. A line that is due
/// waits until its turn, and is looked at then if it has an open cell. Allocates nothing.
#[derive(Clone, Copy)]
pub struct Walk {
    due: LineSet,
    turn: Turn,
}

impl Walk {
    // A walk at the first turn of the first round, in which each line is due.
    pub(crate) fn start(facts: &Facts) -> Walk
        ensures can { CanWalk facts.now result }
        ensures walks { (clues : Clues) → Walks clues facts.now [] facts.now result }
        ensures few { left_to_do facts.now result.due < 2 ^ 30 }
    {
        let _ = facts.height();
        Walk {
            due: all_lines(facts),
            turn: Turn::first(),
        }
    }

    // Looks at the next line that is due and has an open cell when its turn comes. `None` says that the run is over.
    pub(crate) fn look<E: LineEngine>(
        &mut self,
        engine: &mut E,
        facts: &mut Facts,
        book: &ClueBook,
    ) -> Option<Seen>
        requires can { CanWalk facts.old self.old }
        requires closable { AreClosable book.now (E.longest engine.old) facts.old }
        ensures can { CanWalk facts.new self.new }
        ensures closable { AreClosable book.now (E.longest engine.new) facts.new }
        ensures looks { (start : Masks) (looks : List Look)
            → Walks book.now start looks facts.old self.old
            → Looks book.now start looks facts.old facts.new self.new result }
        ensures lengths { IfSome result (λ seen. length seen.after ≡ length seen.before) }
        ensures clue { IfSome result (λ seen. HasClue book.now seen.turn.line) }
        ensures left { IfSome result
            (λ seen. AreLeft (clue_at book.now seen.turn.line) seen.before seen.after) }
        ensures less { OnSome result
            (left_to_do facts.new self.new.due < left_to_do facts.old self.old.due) }
        ensures called { MatchOption
            result
            (E.calls engine.new ≡ E.calls engine.old)
            (λ _. E.calls engine.new ≡ counted (E.calls engine.old) 1) }
        ensures same_facts { IfNone result (facts.new ≡ facts.old) }
        ensures same_longest { E.longest engine.new ≡ E.longest engine.old }
    {
        let turn = self.next_look(facts)?;
        let _ = facts.height();
        let before = LineMasks::of(facts, turn.line);
        let mut count = 0;
        let forced = force_crossing(engine, facts, book.clue(turn.line), turn.line, &mut count);
        self.due.put_all(&forced.changed);
        let after = LineMasks::of(facts, turn.line);
        Some(Seen {
            turn,
            before,
            after,
        })
    }

    // Goes on to the next turn in which a line is looked at, and behind it.
    fn next_look(&mut self, facts: &Facts) -> Option<Turn>
        requires { CanWalk facts.now self.old }
        ensures can { CanWalk facts.now self.new }
        ensures comes { (clues : Clues) (start : Masks) (looks : List Look)
            → Walks clues start looks facts.now self.old
            → ComesToLook clues start looks facts.now self.new result }
        ensures line { IfSome result (λ turn. HasLine facts.now turn.line) }
        ensures gone { IfSome result (λ turn. ¬ HasName self.new.due turn.line) }
        ensures less { OnSome result
            (left_to_do facts.now self.new.due < left_to_do facts.now self.old.due) }
    {
        let _ = facts.height();
        while let Some(turn) = self.turn.next_waiting(&self.due, facts) {
            self.due.take_out(turn.line);
            self.turn = turn.next(facts);
            if has_open_cell(facts, turn.line) {
                return Some(turn);
            }
        }
        None
    }
}

// Whether a cell of a line can have more than one colour.
fn has_open_cell(facts: &Facts, line: LineId) -> bool
    requires { HasLine facts.now line }
    ensures { IsTrue result ↔ HasOpenCell facts.now line }
{
    for place in 0..facts.line_len(line) {
        if facts.left_on(line, place).count_ones() > 1 {
            return true;
        }
    }
    false
}
