//! Keeps the steps of a book that stand after a change.

ghost use Rattle.std.specs.Prelude.{◌≡◌, ℕ, [], length, IfOk};
ghost use Rattle.picture.specs.declared.line_id.Axis.{Axis};
ghost use Rattle.picture.specs.Rows.{lines_along};
ghost use Rattle.clues.specs.Change.{lines_after};
ghost use Rattle.line_facts.specs.FactSets.{IsClosed, IsClosedLine};
ghost use Rattle.line_facts.specs.Fits.{CanFit};
ghost use Rattle.line_facts.specs.Outside.{EachFits, EachOutside};
ghost use Rattle.justify.specs.Book.{AreTrimmed, IsDerivation};
ghost use Rattle.retract.specs.StandingSteps.{AreStanding, HaveBooks};
ghost use Rattle.retract.specs.Dirty.{AreDirty};

use crate::dirty::{Sides, dirty_lines};
use crate::same_clues::lines_of_same_clue;
use crate::standing::standing_line;
use clues::{Change, ClueBook};
use justify::Book;
use line_facts::Facts;
use picture::LineSet;
use std::alloc::{AllocError, Global};

/// A book with the steps that still stand after a change, and the lines of the new picture that may exclude more.
#[derive(Drop)]
pub struct Kept {
    pub book: Book,
    pub dirty: LineSet,
}

// The number of steps for which the kept book allocates room: about as many are added later as are dropped now.
fn room_for(book: &Book) -> usize {
    let steps = book.steps().len();
    steps + steps / 4
}

/// Keeps the steps of a book that stand after a change, in order and each moved to its new line, over a new base, and
/// names the dirty lines. The book has to be a derivation from the old clues, the change to lead from the size of the old
/// clue book to that of the new one, and the base to have the new size. If all steps are trimmed, all kept ones are.
pub fn keep(
    alloc: Global,
    book: &Book,
    old: &ClueBook,
    new: &ClueBook,
    change: &Change,
    base: Facts,
) -> Result<Kept, AllocError>
    requires derivation { IsDerivation old.now book.now }
    requires books { HaveBooks change.now.moves old.now new.now }
    requires base { (axis : Axis) → lines_along axis base ≡ lines_after axis change.now.moves }
    ensures base { IfOk result (λ kept. kept.book.base ≡ base) }
    ensures steps { IfOk result
        (λ kept. AreStanding change.now.moves old.now new.now base book.now.steps kept.book.steps) }
    ensures dirty { IfOk result (λ kept.
        AreDirty change.now.moves old.now new.now book.now.facts kept.book.facts kept.dirty) }
    ensures derivation { IfOk result (λ kept. IsDerivation new.now kept.book) }
    ensures trimmed { AreTrimmed old.now book.now
        → IfOk result (λ kept. AreTrimmed new.now kept.book) }
    ensures closed { IsClosed old.now book.now.facts
        → IfOk result (λ kept. EachOutside IsClosedLine new.now kept.book.facts kept.dirty) }
    ensures fits { EachFits old.now book.now.facts
        → IfOk result (λ kept. EachOutside CanFit new.now kept.book.facts kept.dirty) }
{
    let _ = base.height();
    let same = lines_of_same_clue(old, new, change);
    let mut kept = Book::with_room(alloc, base, room_for(book))?;
    for step in book.steps() {
        if let Some(to) = standing_line(step, old, new, change, &same, kept.facts()) {
            kept.add_step(step.moved_to(to)?)?;
        }
    }
    let sides = Sides {
        old,
        new,
        change,
        same: &same,
        before: book.facts(),
        after: kept.facts(),
    };
    let dirty = dirty_lines(&sides);
    Ok(Kept { book: kept, dirty })
}
