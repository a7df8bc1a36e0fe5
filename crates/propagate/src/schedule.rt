//! Runs a schedule over a book: a list of lines, each evaluated as often as it is named.

ghost use Rattle.std.specs.Prelude.{◌≡◌, IfOk};
ghost use Rattle.std.specs.List.{All};
ghost use Rattle.picture.specs.Rows.{HasLine};
ghost use Rattle.justify.specs.Book.{AreTrimmed, IsDerivation};
ghost use Rattle.fixpoint.specs.ClosedFacts.{AreClosable};
ghost use Rattle.propagate.specs.Schedule.{RunsSchedule, ScheduleWorks};

use crate::turn::take_turn;
use clues::ClueBook;
use fixpoint::CloseFault;
use justify::Book;
use line_facts::{LineEngine, Meter};
use picture::LineId;

/// Evaluates the lines of a schedule in order, each as often as it is named, and appends a step to the book whenever
/// one draws something. The book has to be a derivation from the clues. Dead says that a named line had no list that
/// fits when it was evaluated. The book is dropped on any error.
pub fn run_schedule<E: LineEngine>(
    engine: &mut E,
    book: Book,
    clues: &ClueBook,
    schedule: &[LineId],
    meter: &mut Meter,
) -> Result<Book, CloseFault>
    requires closable { AreClosable clues.now (E.longest engine.old) book.facts }
    requires derivation { IsDerivation clues.now book }
    requires lines { All (HasLine book.facts) schedule.now }
    ensures runs { RunsSchedule clues.now book schedule.now result }
    ensures works { ScheduleWorks schedule.now result meter.old meter.new (E.calls engine.old)
        (E.calls engine.new) }
    ensures trimmed { AreTrimmed clues.now book → IfOk result (AreTrimmed clues.now) }
    ensures same_longest { E.longest engine.new ≡ E.longest engine.old }
{
    let _ = book.facts().height();
    let (_calls, _evaluations, _trials) = (engine.calls(), meter.evaluations, meter.trials);
    let mut book = book;
    for line in schedule {
        let made = book.make_step(engine, clues.clue(*line), *line, meter);
        take_turn(&mut book, *line, made)?;
    }
    Ok(book)
}
