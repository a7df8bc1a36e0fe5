//! Whether a step of a book stands after a change.

ghost use Rattle.std.specs.Prelude.{◌≡◌, ℕ, ◌<◌, ◌↔◌, length, IsTrue, IfSome, IfNone};
ghost use Rattle.picture.specs.declared.line_id.Axis.{Axis};
ghost use Rattle.picture.specs.declared.line_id.LineId.{LineId};
ghost use Rattle.picture.specs.Rows.{line_of, lines_along, HasLine};
ghost use Rattle.clues.specs.Change.{AreMoves, lines_after, lines_before};
ghost use Rattle.picture.specs.CrossingLines.{crossing};
ghost use Rattle.line_facts.specs.FactSets.{Excludes};
ghost use Rattle.justify.specs.Premises.{Mentions};
ghost use Rattle.retract.specs.StandingSteps.{AreKnown, ExcludesAll, HaveBooks, HaveSameClues, Stands, StayInPlace};

use crate::sizes::keeps_length;
use clues::{Change, ClueBook};
use justify::{Premise, Step};
use line_facts::Facts;
use picture::{Axis, LineId, LineSet};

// The line of the new picture on which a step stands, if it does. `known` is what the new base excludes and the steps kept so
// far draw, and `same` has the names of the old lines that keep their clues.
pub(crate) fn standing_line(
    step: &Step,
    old: &ClueBook,
    new: &ClueBook,
    change: &Change,
    same: &LineSet,
    known: &Facts,
) -> Option<LineId>
    requires books { HaveBooks change.now.moves old.now new.now }
    requires same { HaveSameClues change.now.moves old.now new.now same.now }
    requires line { step.now.line.at < lines_before step.now.line.axis change.now.moves }
    requires premises { (i : ℕ) → Mentions step.now.premises i
        → i < lines_before (crossing step.now.line.axis) change.now.moves }
    requires drawn { (i : ℕ) → Mentions step.now.drawn i
        → i < lines_before (crossing step.now.line.axis) change.now.moves }
    requires known { (axis : Axis)
        → lines_along axis known.now ≡ lines_after axis change.now.moves }
    ensures some { IfSome result
        (λ to. Stands change.now.moves old.now new.now (Excludes known.now) step.now to) }
    ensures moves { AreMoves change.now.moves }
    ensures none { IfNone result ((to : LineId)
        → Stands change.now.moves old.now new.now (Excludes known.now) step.now to → ⊥) }
{
    let _ = known.height();
    let line = step.line;
    let to = change.image(line)?;
    let premises = step.premises.as_slice();
    if keeps_length(old, new, change, line.axis)
        && same.has(line)
        && stay_in_place(change, line.axis, premises)
        && stay_in_place(change, line.axis, step.drawn.as_slice())
        && are_known(known, to, premises)
    {
        Some(to)
    } else {
        None
    }
}

// Whether each cell of some premises, or of what a step draws, keeps its place along the line.
fn stay_in_place(change: &Change, axis: Axis, premises: &[Premise]) -> bool
    requires { (i : ℕ) → Mentions premises.now i
        → i < lines_before (crossing axis) change.now.moves }
    ensures { IsTrue result ↔ StayInPlace change.now.moves axis premises.now }
{
    for premise in premises {
        if !change.stays(axis, premise.at) {
            return false;
        }
    }
    true
}

// Whether each colour that premises exclude is excluded on a line.
fn are_known(known: &Facts, line: LineId, premises: &[Premise]) -> bool
    requires line { HasLine known.now line }
    requires inside { (i : ℕ) → Mentions premises.now i → i < length (line_of known.now line) }
    ensures { IsTrue result ↔ AreKnown (Excludes known.now) line premises.now }
{
    for premise in premises {
        if !excludes_all(known, line, premise.at, premise.colours) {
            return false;
        }
    }
    true
}

#[tactic(auto, using(crate::proofs::MaskLemmas::excluding))]
// Whether all colours of a mask are excluded in the cell at a place of a line.
fn excludes_all(known: &Facts, line: LineId, place: u8, colours: u16) -> bool
    requires line { HasLine known.now line }
    requires place { place < length (line_of known.now line) }
    ensures { IsTrue result ↔ ExcludesAll known.now line place colours }
{
    known.left_on(line, place) & colours == 0
}
