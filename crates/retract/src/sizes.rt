//! Whether a change keeps the lengths of lines and the places along them.

ghost use Rattle.std.specs.Prelude.{◌↔◌, IsTrue};
ghost use Rattle.retract.specs.StandingSteps.{HaveBooks, KeepsLength};
ghost use Rattle.retract.specs.Dirty.{AllStay, IsInPlace};

use clues::{Change, ClueBook};
use picture::Axis;

// Whether lines along an axis have as many cells as before, and each position along them stays.
pub(crate) fn is_in_place(old: &ClueBook, new: &ClueBook, change: &Change, axis: Axis) -> bool
    requires { HaveBooks change.now.moves old.now new.now }
    ensures { IsTrue result ↔ IsInPlace change.now.moves axis }
{
    keeps_length(old, new, change, axis) && all_stay(old, new, change, axis)
}

// Whether the lines along an axis have as many cells as before.
pub(crate) fn keeps_length(old: &ClueBook, new: &ClueBook, change: &Change, axis: Axis) -> bool
    requires { HaveBooks change.now.moves old.now new.now }
    ensures { IsTrue result ↔ KeepsLength change.now.moves axis }
{
    old.line_count(axis.crossing()) == new.line_count(axis.crossing())
}

// Whether each position along lines of an axis stays.
fn all_stay(old: &ClueBook, new: &ClueBook, change: &Change, axis: Axis) -> bool
    requires { HaveBooks change.now.moves old.now new.now }
    ensures { IsTrue result ↔ AllStay change.now.moves axis }
{
    for place in 0..old.line_count(axis.crossing()) {
        if !change.stays(axis, place) {
            return false;
        }
    }
    true
}
