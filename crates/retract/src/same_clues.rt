//! The lines that keep their clues in a change.

ghost use Rattle.std.specs.Prelude.{◌<◌, ◌↔◌, IsTrue};
ghost use Rattle.clues.specs.Change.{lines_before};
ghost use Rattle.retract.specs.StandingSteps.{HaveBooks, HaveSameClues, KeepsClue, PutsSame};

use clues::{Change, ClueBook};
use picture::{Axis, LineId, LineSet};

// The names of the old lines that are still lines of the new picture, with the same clue.
pub(crate) fn lines_of_same_clue(old: &ClueBook, new: &ClueBook, change: &Change) -> LineSet
    requires { HaveBooks change.now.moves old.now new.now }
    ensures { HaveSameClues change.now.moves old.now new.now result }
{
    let mut same = LineSet::empty();
    put_same(&mut same, Axis::Across, old, new, change);
    put_same(&mut same, Axis::Down, old, new, change);
    same
}

// Puts the names of these lines along an axis into a set.
fn put_same(same: &mut LineSet, axis: Axis, old: &ClueBook, new: &ClueBook, change: &Change)
    requires { HaveBooks change.now.moves old.now new.now }
    ensures { PutsSame change.now.moves old.now new.now axis (lines_before axis change.now.moves)
        same.old same.new }
{
    for at in 0..old.line_count(axis) {
        let line = LineId { axis, at };
        if keeps_clue(old, new, change, line) {
            same.put(line);
        }
    }
}

// Whether an old line is still a line of the new picture, with the same clue.
fn keeps_clue(old: &ClueBook, new: &ClueBook, change: &Change, line: LineId) -> bool
    requires books { HaveBooks change.now.moves old.now new.now }
    requires line { line.at < lines_before line.axis change.now.moves }
    ensures { IsTrue result ↔ KeepsClue change.now.moves old.now new.now line }
{
    match change.image(line) {
        Some(to) => new.clue(to).same(old.clue(line)),
        None => false,
    }
}
