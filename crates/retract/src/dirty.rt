//! The dirty lines of a new picture, which may exclude more.

ghost use Rattle.std.specs.Prelude.{◌≡◌, ℕ, ◌<◌, ◌↔◌, IsTrue};
ghost use Rattle.picture.specs.declared.line_id.Axis.{Axis};
ghost use Rattle.picture.specs.declared.line_id.LineId.{LineId};
ghost use Rattle.picture.specs.LineSet.{HasName};
ghost use Rattle.picture.specs.Rows.{line_of, lines_along, HasLine};
ghost use Rattle.clues.specs.Change.{lines_after, lines_before};
ghost use Rattle.retract.specs.StandingSteps.{HaveBooks, HaveSameClues};
ghost use Rattle.retract.specs.Dirty.{AreDirty, AreDirtyAlong, HaveFacts, IsClean, IsInPlace, SaysTheSame};

use crate::sizes::is_in_place;
use clues::{Change, ClueBook};
use line_facts::Facts;
use picture::{Axis, LineId, LineSet};

// The clues of the old picture and of the new one, the change between them, the names of the old lines that keep their clues,
// and what is known of the cells of each.
#[derive(Clone, Copy)]
pub(crate) struct Sides<'a> {
    pub old: &'a ClueBook,
    pub new: &'a ClueBook,
    pub change: &'a Change,
    pub same: &'a LineSet,
    pub before: &'a Facts,
    pub after: &'a Facts,
}

// The names of the dirty lines.
pub(crate) fn dirty_lines(sides: &Sides<'_>) -> LineSet
    requires books { HaveBooks sides.now.change.now.moves sides.now.old.now sides.now.new.now }
    requires same { HaveSameClues sides.now.change.now.moves sides.now.old.now sides.now.new.now
        sides.now.same.now }
    requires facts { HaveFacts sides.now.change.now.moves sides.now.before.now sides.now.after.now }
    ensures { AreDirty sides.now.change.now.moves sides.now.old.now sides.now.new.now
        sides.now.before.now sides.now.after.now result }
{
    let mut dirty = LineSet::empty();
    put_dirty(&mut dirty, Axis::Across, sides);
    put_dirty(&mut dirty, Axis::Down, sides);
    dirty
}

// Puts the names of the dirty lines along an axis into a set.
fn put_dirty(dirty: &mut LineSet, axis: Axis, sides: &Sides<'_>)
    requires books { HaveBooks sides.now.change.now.moves sides.now.old.now sides.now.new.now }
    requires same { HaveSameClues sides.now.change.now.moves sides.now.old.now sides.now.new.now
        sides.now.same.now }
    requires facts { HaveFacts sides.now.change.now.moves sides.now.before.now sides.now.after.now }
    requires none { (line : LineId) → line.axis ≡ axis → HasName dirty.old line → ⊥ }
    ensures along { AreDirtyAlong axis sides.now.change.now.moves sides.now.old.now
        sides.now.new.now sides.now.before.now sides.now.after.now dirty.new }
    ensures others { (line : LineId) → (line.axis ≡ axis → ⊥)
        → HasName dirty.new line ↔ HasName dirty.old line }
{
    let in_place = is_in_place(sides.old, sides.new, sides.change, axis);
    for at in 0..sides.new.line_count(axis) {
        let line = LineId { axis, at };
        if !is_clean(in_place, sides, line) {
            dirty.put(line);
        }
    }
}

// Whether a new line is clean. `in_place` says whether the lines of its axis are in place.
fn is_clean(in_place: bool, sides: &Sides<'_>, line: LineId) -> bool
    requires in_place { IsTrue in_place ↔ IsInPlace sides.now.change.now.moves line.axis }
    requires books { HaveBooks sides.now.change.now.moves sides.now.old.now sides.now.new.now }
    requires same { HaveSameClues sides.now.change.now.moves sides.now.old.now sides.now.new.now
        sides.now.same.now }
    requires facts { HaveFacts sides.now.change.now.moves sides.now.before.now sides.now.after.now }
    requires line { HasLine sides.now.after.now line }
    ensures { IsTrue result ↔ IsClean sides.now.change.now.moves sides.now.old.now
        sides.now.new.now sides.now.before.now sides.now.after.now line }
{
    in_place && says_the_same(sides, line)
}

// Whether a new line was an old line with the same clue, and the same is known of its cells.
fn says_the_same(sides: &Sides<'_>, line: LineId) -> bool
    requires books { HaveBooks sides.now.change.now.moves sides.now.old.now sides.now.new.now }
    requires same { HaveSameClues sides.now.change.now.moves sides.now.old.now sides.now.new.now
        sides.now.same.now }
    requires facts { HaveFacts sides.now.change.now.moves sides.now.before.now sides.now.after.now }
    requires line { HasLine sides.now.after.now line }
    ensures { IsTrue result ↔ SaysTheSame sides.now.change.now.moves sides.now.old.now
        sides.now.new.now sides.now.before.now sides.now.after.now line }
{
    let Some(from) = sides.change.origin(line) else {
        return false;
    };
    let _ = sides.old.line_count(from.axis);
    sides.same.has(from) && sides.before.same_line(from, sides.after, line)
}
