//! The figures of line logic on a puzzle, from its first look to its last.

ghost use Rattle.std.specs.Prelude.{◌≡◌, List};
ghost use Rattle.picture.specs.Rows.{Rows};
ghost use Rattle.line_facts.specs.Counts.{counted};
ghost use Rattle.line_facts.specs.FactSets.{IsLeast};
ghost use Rattle.fixpoint.specs.ClosedFacts.{AreClosable};
ghost use Rattle.fixpoint.specs.Fillings.{Fills};
ghost use Rattle.grade.specs.Figures.{figures_of};
ghost use Rattle.grade.specs.Looks.{Look};
ghost use Rattle.grade.specs.Runs.{IsRun};

use crate::figures::{Figures, Tally};
use crate::walk::Walk;
use clues::ClueBook;
use line_facts::{Facts, LineEngine};

/// Runs line logic from the facts, which `start_facts` makes for a puzzle, round by round, and counts its looks. If some
/// picture has the clues and only colours that the facts leave, the facts at the end are the least closed ones that hold
/// those at the start. `evaluations` is how often the engine was called. Allocates nothing.
pub fn grade_lines<E: LineEngine>(engine: &mut E, facts: &mut Facts, book: &ClueBook) -> Figures
    requires { AreClosable book.now (E.longest engine.old) facts.old }
    ensures figures { (looks : List Look) × IsRun book.now facts.old looks facts.new
        × (result ≡ figures_of looks facts.new) }
    ensures least { (picture : Rows) → Fills book.now facts.old picture
        → IsLeast book.now facts.old facts.new }
    ensures called { E.calls engine.new ≡ counted (E.calls engine.old) result.evaluations }
    ensures same_longest { E.longest engine.new ≡ E.longest engine.old }
{
    let _ = engine.calls();
    let mut walk = Walk::start(facts);
    let mut tally = Tally::start();
    while let Some(seen) = walk.look(engine, facts, book) {
        tally.count(&seen);
    }
    tally.figures(facts)
}
