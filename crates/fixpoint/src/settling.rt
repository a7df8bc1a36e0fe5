//! Settling clues from a base: the least closed facts.

ghost use Rattle.std.specs.Prelude.{◌≡◌, ◌≤◌};
ghost use Rattle.line_facts.specs.Counts.{Counts};
ghost use Rattle.line_facts.specs.FactSets.{IsFacts};
ghost use Rattle.fixpoint.specs.ClosedFacts.{AreClosable};
ghost use Rattle.fixpoint.specs.LeastFacts.{Settles, SettlingWorks};

use crate::agenda::Agenda;
use crate::closing::close_facts;
use crate::fault::CloseFault;
use crate::line_names::all_lines;
use clues::ClueBook;
use line_facts::{Facts, LineEngine, Meter, Outcome};

/// The least closed facts that hold a base: what the lines exclude by their clues, whichever engine and agenda are
/// used. The base is left as it is. Dead says that under the least closed facts some line has no list that fits.
pub fn settle_afresh<E: LineEngine, A: Agenda>(
    engine: &mut E,
    agenda: &mut A,
    book: &ClueBook,
    meter: &mut Meter,
    base: &Facts,
) -> Result<Facts, CloseFault>
    requires { AreClosable book.now (E.longest engine.old) base.now }
    ensures settles { Settles book.now base.now result }
    ensures works { SettlingWorks book.now base.now result meter.old meter.new (E.calls engine.old)
        (E.calls engine.new) }
    ensures same_longest { E.longest engine.new ≡ E.longest engine.old }
{
    let (_calls, _evaluations, _trials) = (engine.calls(), meter.evaluations, meter.trials);
    let mut facts = base.copy()?;
    let lines = all_lines(&facts);
    match close_facts(engine, agenda, &mut facts, book, &lines, meter) {
        Outcome::Narrowed => Ok(facts),
        Outcome::Dead => Err(CloseFault::Dead),
    }
}
