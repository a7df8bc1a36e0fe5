//! Propagating a book to the fixpoint of all lines, by a step each time a line draws something.

ghost use Rattle.std.specs.Prelude.{◌≡◌, ◌≤◌, IfOk};
ghost use Rattle.justify.specs.Book.{AreTrimmed, IsDerivation};
ghost use Rattle.fixpoint.specs.ClosedFacts.{AreClosable, QuietOutside};
ghost use Rattle.propagate.specs.ClosingBooks.{BookWorks, ClosesBook};
ghost use Rattle.fixpoint.specs.LineNames.{AreLinesOf};

use crate::turn::take_turn;
use clues::ClueBook;
use fixpoint::{Agenda, CloseFault};
use justify::Book;
use line_facts::{LineEngine, Meter};
use picture::LineSet;

/// Appends steps to a book until no line forces more: its facts are then the least closed ones over its base. The book
/// has to be a derivation from the clues, and every line that is not in `dirty` quiet under its facts: it forces
/// nothing new, and some list fits it. Dead says that under the least closed facts some line has no list that fits.
/// The book is dropped on any error. The agenda is cleared first.
pub fn close<E: LineEngine, A: Agenda>(
    engine: &mut E,
    agenda: &mut A,
    book: Book,
    clues: &ClueBook,
    dirty: &LineSet,
    meter: &mut Meter,
) -> Result<Book, CloseFault>
    requires closable { AreClosable clues.now (E.longest engine.old) book.facts }
    requires derivation { IsDerivation clues.now book }
    requires lines { AreLinesOf book.facts dirty.now }
    requires quiet { QuietOutside clues.now book.facts dirty.now }
    ensures closes { ClosesBook clues.now book result }
    ensures works { BookWorks dirty.now book result meter.old meter.new (E.calls engine.old)
        (E.calls engine.new) }
    ensures calls { E.calls engine.old ≤ E.calls engine.new }
    ensures trimmed { AreTrimmed clues.now book → IfOk result (AreTrimmed clues.now) }
    ensures same_longest { E.longest engine.new ≡ E.longest engine.old }
{
    let _ = book.facts().height();
    let (_calls, _evaluations, _trials) = (engine.calls(), meter.evaluations, meter.trials);
    let mut book = book;
    agenda.clear();
    agenda.put_all(dirty);
    while let Some(line) = agenda.take() {
        let made = book.make_step(engine, clues.clue(line), line, meter);
        let changed = take_turn(&mut book, line, made)?;
        agenda.put_all(&changed);
    }
    Ok(book)
}
