//! The first picture with given clues: by trees and a search with lemmas in turn.

ghost use Rattle.std.specs.Prelude.{◌≡◌, ◌≤◌, IfOk, IfSome};
ghost use Rattle.line_facts.specs.FactSets.{SameShape};
ghost use Rattle.fixpoint.specs.ClosedFacts.{AreClosable};
ghost use Rattle.second_search.specs.SettledFacts.{FindsFilling};
ghost use Rattle.second_search.specs.Trees.{IsOtherIn};

use crate::bounds::Turns;
use crate::finding::{filling_of, find_filling};
use crate::ladder::{Ladder, take_turn};
use crate::learning::LITERALS;
use crate::scene::Scene;
use crate::tree_step::is_other_in;
use lemma_proof::Effort;
use lemma_search::{Found, learn};
use line_facts::LineEngine;
use picture::{CellSet, Picture};
use std::alloc::{AllocError, Global};

// Finds a picture as `find_filling` does: by small trees, by a search with lemmas, and then by larger trees. The search prefers other
// colours than those of the scene's picture, which is blank.
pub(crate) fn find_in_turns<E: LineEngine>(
    alloc: Global,
    engine: &mut E,
    scene: &Scene,
    turns: Turns,
) -> Result<Option<Picture>, AllocError>
    requires closable { AreClosable scene.now.clues.now (E.longest engine.old) scene.now.facts.now }
    requires same_shape { SameShape scene.now.picture.now scene.now.facts.now }
    ensures finds { IfOk result
        (FindsFilling scene.now.clues.now scene.now.facts.now scene.now.picture.now) }
    ensures calls { E.calls engine.old ≤ E.calls engine.new }
    ensures same_longest { E.longest engine.new ≡ E.longest engine.old }
{
    let ladder = Ladder {
        first_bound: turns.evaluations,
        judging: 0,
        holds: false,
        keeps: false,
    };
    if let Some(decided) = take_turn(alloc, engine, scene, ladder, turns.evaluations, &mut 0)? {
        return Ok(filling_of(scene, decided));
    }
    if let Some(picture) = learn_first(alloc, engine, scene, turns.conflicts)? {
        return Ok(Some(picture));
    }
    let evaluations = turns.evaluations.saturating_mul(4);
    find_filling(alloc, engine, scene, false, evaluations)
}

// Looks for such a picture by lemmas, from so many conflicts at most. Nothing is promised of what `learn` finds, so it is checked.
fn learn_first<E: LineEngine>(
    alloc: Global,
    engine: &mut E,
    scene: &Scene,
    conflicts: u32,
) -> Result<Option<Picture>, AllocError>
    ensures other { IfOk result (λ found. IfSome found
        (IsOtherIn scene.now.clues.now scene.now.picture.now scene.now.facts.now)) }
    ensures calls { E.calls engine.old ≤ E.calls engine.new }
    ensures same_longest { E.longest engine.new ≡ E.longest engine.old }
{
    let effort = Effort {
        conflicts,
        literals: LITERALS,
        aims: true,
    };
    let givens = CellSet::empty();
    let found = learn(alloc, engine, scene.clues, &givens, scene.picture, effort)?;
    let Found::Other(picture) = found else {
        return Ok(None);
    };
    if is_other_in(scene, scene.facts, &picture) {
        Ok(Some(picture))
    } else {
        Ok(None)
    }
}
