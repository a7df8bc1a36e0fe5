//! Propagating facts to the fixpoint of all lines.

ghost use Rattle.std.specs.Prelude.{◌≡◌};
ghost use Rattle.fixpoint.specs.ClosedFacts.{AreClosable, Closes, KeepsOtherLines, QuietOutside, Works, evaluated};
ghost use Rattle.fixpoint.specs.LineNames.{AreLinesOf};

use crate::agenda::Agenda;
use clues::ClueBook;
use line_facts::{Facts, LineEngine, Meter, Outcome, force_crossing};
use picture::LineSet;

/// The result of closing facts: the outcome, the lines in which facts may have changed, and how many lines were evaluated. The
/// count stays at the largest number instead of overflowing.
#[derive(Clone, Copy)]
pub struct Closed {
    pub outcome: Outcome,
    pub changed: LineSet,
    pub evaluations: u64,
}

/// Excludes in the facts what any line forces, until no line forces more. Every line that is not in `dirty` has to be
/// quiet already: it forces nothing new, and some list fits it. Narrowed leaves the least closed facts that hold the
/// ones passed. Dead says that under these some line has no list that fits; the facts should then be dropped. The agenda
/// is cleared first. No memory is allocated.
pub fn close_facts<E: LineEngine, A: Agenda>(
    engine: &mut E,
    agenda: &mut A,
    facts: &mut Facts,
    book: &ClueBook,
    dirty: &LineSet,
    meter: &mut Meter,
) -> Outcome
    requires closable { AreClosable book.now (E.longest engine.old) facts.old }
    requires lines { AreLinesOf facts.old dirty.now }
    requires quiet { QuietOutside book.now facts.old dirty.now }
    ensures closes { Closes book.now facts.old facts.new result }
    ensures works { Works book.now dirty.now facts.old facts.new result meter.old meter.new
        (E.calls engine.old) (E.calls engine.new) }
    ensures same_longest { E.longest engine.new ≡ E.longest engine.old }
{
    let _trials = meter.trials;
    let closed = close_naming(engine, agenda, facts, book, dirty);
    meter.evaluations = meter.evaluations.saturating_add(closed.evaluations);
    closed.outcome
}

/// Closes facts as `close_facts` does. The result names the lines of `dirty` and those that cross a line at a cell that changed;
/// each other line is as it was.
pub fn close_naming<E: LineEngine, A: Agenda>(
    engine: &mut E,
    agenda: &mut A,
    facts: &mut Facts,
    book: &ClueBook,
    dirty: &LineSet,
) -> Closed
    requires closable { AreClosable book.now (E.longest engine.old) facts.old }
    requires lines { AreLinesOf facts.old dirty.now }
    requires quiet { QuietOutside book.now facts.old dirty.now }
    ensures closes { Closes book.now facts.old facts.new result.outcome }
    ensures works { Works book.now dirty.now facts.old facts.new result.outcome
        (evaluated 0) (evaluated result.evaluations) (E.calls engine.old) (E.calls engine.new) }
    ensures kept { KeepsOtherLines facts.old facts.new result.changed }
    ensures same_longest { E.longest engine.new ≡ E.longest engine.old }
{
    let _ = engine.calls();
    let mut evaluations = 0;
    let mut changed = *dirty;
    agenda.clear();
    agenda.put_all(dirty);
    while let Some(line) = agenda.take() {
        let _ = facts.height();
        let forced = force_crossing(engine, facts, book.clue(line), line, &mut evaluations);
        agenda.put_all(&forced.changed);
        changed.put_all(&forced.changed);
        match forced.outcome {
            Outcome::Dead => {
                return Closed {
                    outcome: Outcome::Dead,
                    changed,
                    evaluations,
                };
            }
            Outcome::Narrowed => {}
        }
    }
    Closed {
        outcome: Outcome::Narrowed,
        changed,
        evaluations,
    }
}
