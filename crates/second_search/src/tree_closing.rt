//! Closing a branch line by line, with the lines that force something written.

ghost use Rattle.std.specs.Prelude.{◌≡◌, ◌≤◌, length, max, IfOk, IsTrue};
ghost use Rattle.picture.specs.Rows.{line_of, HasLine};
ghost use Rattle.line_facts.specs.Counts.{counted};
ghost use Rattle.clues.specs.ClueBook.{HasClue};
ghost use Rattle.line_facts.specs.FactSets.{IsFacts};
ghost use Rattle.fixpoint.specs.ClosedFacts.{AreClosable};
ghost use Rattle.second_search.specs.Trees.{Settles};

use crate::tree_lines::{Lines, line_number};
use cert_text::CertLine;
use clues::ClueBook;
use fixpoint::{Agenda, InOrder};
use line_facts::{Facts, Forced, LineEngine, Outcome, force_crossing};
use picture::{LineId, LineSet};
use std::alloc::AllocError;

// More lines are never due on one branch: each evaluation of a line after its first follows the exclusion of a colour.
const MOST_LINES: u32 = 100_000_000;

#[tactic(auto, using(crate::proofs::KeepLemmas::sized_lines))]
// Closes facts, starting with the dirty lines, and writes each line that forces something, and a dead line if there is one. Once
// the engine has counted `until` calls, it is not called again.
pub(crate) fn close_written<E: LineEngine>(
    engine: &mut E,
    clues: &ClueBook,
    facts: &mut Facts,
    dirty: &LineSet,
    lines: &mut Lines,
    until: u64,
) -> Result<Outcome, AllocError>
    requires { AreClosable clues.now (E.longest engine.old) facts.old }
    ensures settles { IfOk result (Settles clues.now facts.old facts.new lines.old lines.new) }
    ensures calls { E.calls engine.old ≤ E.calls engine.new }
    ensures few { E.calls engine.new ≤ max (E.calls engine.old) until }
    ensures same_longest { E.longest engine.new ≡ E.longest engine.old }
{
    let mut agenda = InOrder::make();
    agenda.put_all(dirty);
    for _ in 0..MOST_LINES {
        if engine.calls() >= until {
            return Ok(Outcome::Narrowed);
        }
        let Some(line) = agenda.take() else {
            return Ok(Outcome::Narrowed);
        };
        if line.at >= clues.line_count(line.axis) {
            continue;
        }
        let forced = take_line(engine, clues, facts, line, lines)?;
        match forced.outcome {
            Outcome::Dead => return Ok(Outcome::Dead),
            Outcome::Narrowed => {}
        }
        agenda.put_all(&forced.changed);
    }
    Ok(Outcome::Narrowed)
}

#[tactic(auto, using(crate::proofs::TreeLemmas::taking, line_facts::proofs::LawLemmas::closes_a_line))]
// Evaluates a line, and writes it where it forces something or is dead.
fn take_line<E: LineEngine>(
    engine: &mut E,
    clues: &ClueBook,
    facts: &mut Facts,
    line: LineId,
    lines: &mut Lines,
) -> Result<Forced, AllocError>
    requires closable { AreClosable clues.now (E.longest engine.old) facts.old }
    requires line { HasLine facts.old line }
    ensures settles { IfOk result (λ forced.
        Settles clues.now facts.old facts.new lines.old lines.new forced.outcome) }
    ensures called { E.calls engine.new ≡ counted (E.calls engine.old) 1 }
    ensures same_longest { E.longest engine.new ≡ E.longest engine.old }
{
    let _ = facts.height();
    let mut count = 0;
    let forced = force_crossing(engine, facts, clues.clue(line), line, &mut count);
    match forced.outcome {
        Outcome::Dead => {
            lines.add(CertLine::Dead(line_number(line)))?;
            Ok(forced)
        }
        Outcome::Narrowed => {
            if forced.changed.is_empty() {
                return Ok(forced);
            }
            lines.add(CertLine::Line(line_number(line)))?;
            Ok(forced)
        }
    }
}
