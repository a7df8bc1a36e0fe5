//! Forcing: one evaluation of a line, written back to the facts.

ghost use Rattle.std.specs.Prelude.{◌≡◌, ℕ, ◌≤◌, ◌↔◌, length, slice_index, take};
ghost use Rattle.picture.specs.declared.line_id.LineId.{LineId};
ghost use Rattle.picture.specs.LineSet.{HasName};
ghost use Rattle.picture.specs.Rows.{line_of, HasLine};
ghost use Rattle.line_facts.specs.Counts.{counted};
ghost use Rattle.line_facts.specs.CrossedLines.{CrossesChange};
ghost use Rattle.line_facts.specs.FactSets.{Gains, HoldsLine};

use crate::apart::places_apart;
use crate::facts::Facts;
use crate::line_engine::{LineEngine, Outcome};
use clues::Clue;
use picture::{LineId, LineSet, MAX_SIDE};

// No line has more cells. It is a multiple of 16, since cells are compared sixteen at a time.
const MOST_CELLS: usize = 128;

/// The result of forcing a line.
#[derive(Clone, Copy)]
pub struct Forced {
    pub outcome: Outcome,
    /// The lines that cross it at a cell whose mask has changed.
    pub changed: LineSet,
}

/// Adds to the facts all that a line forces by its clue: in each of its cells every colour is excluded that no list
/// that fits has there. Where no list fits, every colour on the line is excluded, and the outcome is Dead. The line is
/// evaluated once, and no memory is taken.
pub fn force<E: LineEngine>(
    engine: &mut E,
    facts: &mut Facts,
    clue: &Clue,
    line: LineId,
    count: &mut u64,
) -> Outcome
    requires line { HasLine facts.old line }
    requires short { length (line_of facts.old line) ≤ E.longest engine.old }
    ensures gains { Gains clue.now line facts.old facts.new result }
    ensures counted { count.new ≡ counted count.old 1 }
    ensures called { E.calls engine.new ≡ counted (E.calls engine.old) 1 }
    ensures same_longest { E.longest engine.new ≡ E.longest engine.old }
{
    force_crossing(engine, facts, clue, line, count).outcome
}

/// Forces a line as `force` does, and says which lines cross it where it has changed.
pub fn force_crossing<E: LineEngine>(
    engine: &mut E,
    facts: &mut Facts,
    clue: &Clue,
    line: LineId,
    count: &mut u64,
) -> Forced
    requires line { HasLine facts.old line }
    requires short { length (line_of facts.old line) ≤ E.longest engine.old }
    ensures gains { Gains clue.now line facts.old facts.new result.outcome }
    ensures changed { (other : LineId)
        → HasName result.changed other
        ↔ CrossesChange line (line_of facts.old line) (line_of facts.new line) other }
    ensures counted { count.new ≡ counted count.old 1 }
    ensures called { E.calls engine.new ≡ counted (E.calls engine.old) 1 }
    ensures same_longest { E.longest engine.new ≡ E.longest engine.old }
{
    let mut left = [0; MOST_CELLS];
    let mut out = [0; MOST_CELLS];
    let cells = usize::from(facts.line_len(line));
    facts.copy_line(line, &mut left[..cells]);
    let outcome = engine.narrow(count, clue, &left[..cells], &mut out[..cells]);
    let changed = write_changes(facts, line, cells, &left, &out);
    Forced { outcome, changed }
}

// Writes the first `cells` masks to a line, if some differ from the old ones, and says which lines cross it at those.
fn write_changes(
    facts: &mut Facts,
    line: LineId,
    cells: usize,
    left: &[u16],
    masks: &[u16],
) -> LineSet
    requires line { HasLine facts.old line }
    requires room { cells ≤ MAX_SIDE }
    requires cells { cells ≡ length (line_of facts.old line) }
    requires old { take cells left.now ≡ line_of facts.old line }
    requires whole { length left.now ≡ MOST_CELLS }
    requires same_length { length masks.now ≡ length left.now }
    requires same_behind { (i : ℕ) → cells ≤ i → slice_index left.now i ≡ slice_index masks.now i }
    ensures holds { HoldsLine line facts.old facts.new (take cells masks.now) }
    ensures changed { (other : LineId)
        → HasName result other
        ↔ CrossesChange line (take cells left.now) (take cells masks.now) other }
{
    let places = places_apart(left, masks, cells);
    if places != 0 {
        facts.write_line(line, &masks[..cells]);
    }
    LineSet::along(line.axis.crossing(), places)
}
