//! Finding a picture with given clues, or one other than a known picture.

ghost use Rattle.std.specs.Prelude.{◌≡◌, ◌≤◌, ℕ, List, false, length, IfOk};
ghost use Rattle.clues.specs.ClueBook.{clues_of};
ghost use Rattle.line_facts.specs.FactSets.{SameShape};
ghost use Rattle.fixpoint.specs.ClosedFacts.{AreClosable};
ghost use Rattle.second_search.specs.Other.{AreSound, FindsFirst, FindsOther};
ghost use Rattle.second_search.specs.SettledFacts.{FindsFilling};
ghost use Rattle.second_search.specs.Trees.{Decides};

use crate::bounds::{BOUNDS, TURNS, Turns};
use crate::first::find_in_turns;
use crate::ladder::{Decided, Ladder, climb};
use crate::near::find_near_other;
use crate::scene::Scene;
use clues::ClueBook;
use line_facts::{Facts, LineEngine};
use picture::{CellSet, Picture};
use std::alloc::{AllocError, Global};

/// Finds a picture with these clues. There is none exactly where the answer is None. No line may be longer than the engine's
/// `longest`.
pub fn find_first<E: LineEngine>(
    alloc: Global,
    engine: &mut E,
    book: &ClueBook,
) -> Result<Option<Picture>, AllocError>
    requires tall { length book.now.rows ≤ E.longest engine.old }
    requires wide { length book.now.columns ≤ E.longest engine.old }
    ensures finds { IfOk result (FindsFirst book.now) }
    ensures same_longest { E.longest engine.new ≡ E.longest engine.old }
{
    find_first_within(alloc, engine, book, TURNS)
}

/// Finds a picture with these clues as `find_first` does, within other bounds. The answer is true whatever these are.
pub fn find_first_within<E: LineEngine>(
    alloc: Global,
    engine: &mut E,
    book: &ClueBook,
    turns: Turns,
) -> Result<Option<Picture>, AllocError>
    requires tall { length book.now.rows ≤ E.longest engine.old }
    requires wide { length book.now.columns ≤ E.longest engine.old }
    ensures finds { IfOk result (FindsFirst book.now) }
    ensures same_longest { E.longest engine.new ≡ E.longest engine.old }
{
    let blank = Picture::blank(alloc, book.height(), book.width())?;
    let _ = blank.height();
    if book.has_clues(&blank) {
        return Ok(Some(blank));
    }
    let facts = Facts::none(alloc, book.height(), book.width())?;
    let givens = CellSet::empty();
    let scene = Scene {
        clues: book,
        givens: &givens,
        facts: &facts,
        picture: &blank,
    };
    find_in_turns(alloc, engine, &scene, turns)
}

/// Finds another picture with these clues, which has the picture's colours in the givens. There is none exactly where the answer is
/// None. Near pictures are looked for first. The picture must have the clues; the facts must leave in each given no colour but the
/// picture's, and exclude nothing that a picture with these clues and givens shows. No line may be longer than the engine's
/// `longest`.
pub fn find_other<E: LineEngine>(
    alloc: Global,
    engine: &mut E,
    book: &ClueBook,
    givens: &CellSet,
    facts: &Facts,
    picture: &Picture,
) -> Result<Option<Picture>, AllocError>
    requires clues { clues_of picture.now ≡ book.now }
    requires sound { AreSound book.now givens.now picture.now facts.now }
    requires tall { length book.now.rows ≤ E.longest engine.old }
    requires wide { length book.now.columns ≤ E.longest engine.old }
    ensures finds { IfOk result (FindsOther book.now givens.now picture.now) }
    ensures same_longest { E.longest engine.new ≡ E.longest engine.old }
{
    let _ = (givens.len(), facts.height(), picture.height());
    let scene = Scene {
        clues: book,
        givens,
        facts,
        picture,
    };
    let near = find_near_other(alloc, engine, &scene, BOUNDS.window_splits)?;
    if near.is_some() {
        return Ok(near);
    }
    find_filling(alloc, engine, &scene, true, BOUNDS.first_bound)
}

// A picture that fills the facts of a scene and is not the scene's. There is none exactly where the answer is None. The scene's
// picture need not have the clues; `holds` says whether it guides the choice of cells. The first tree may evaluate `first_bound`
// lines.
pub(crate) fn find_filling<E: LineEngine>(
    alloc: Global,
    engine: &mut E,
    scene: &Scene,
    holds: bool,
    first_bound: u64,
) -> Result<Option<Picture>, AllocError>
    requires closable { AreClosable scene.now.clues.now (E.longest engine.old) scene.now.facts.now }
    requires same_shape { SameShape scene.now.picture.now scene.now.facts.now }
    ensures finds { IfOk result
        (FindsFilling scene.now.clues.now scene.now.facts.now scene.now.picture.now) }
    ensures calls { E.calls engine.old ≤ E.calls engine.new }
    ensures same_longest { E.longest engine.new ≡ E.longest engine.old }
{
    let ladder = Ladder {
        first_bound,
        judging: 0,
        holds,
        keeps: false,
    };
    let decided = climb(alloc, engine, scene, ladder)?;
    Ok(filling_of(scene, decided))
}

// The picture that was found, where a scene was decided, or none where there is a tree.
pub(crate) fn filling_of(scene: &Scene, decided: Decided) -> Option<Picture>
    requires same_shape { SameShape scene.now.picture.now scene.now.facts.now }
    requires decides { Decides scene.now.clues.now scene.now.picture.now scene.now.facts.now false
        decided }
    ensures { FindsFilling scene.now.clues.now scene.now.facts.now scene.now.picture.now result }
{
    match decided {
        Decided::Tree(_) => None,
        Decided::OtherPicture(picture) => Some(picture),
    }
}
