//! The ladder: trees that choose their cells in one way and the other in turn, each broken off at a bound that grows.

ghost use Rattle.std.specs.Prelude.{◌≡◌, ◌+◌, ◌*◌, ◌≤◌, IfNone, IfOk, IfSome};
ghost use Rattle.fixpoint.specs.ClosedFacts.{AreClosable};
ghost use Rattle.second_search.specs.Evaluations.{BothReach, most_in_tree};
ghost use Rattle.second_search.specs.Trees.{Decides};

use crate::bounds::LONGER;
use crate::scene::Scene;
use crate::tree::write_tree;
use crate::tree_lines::Lines;
use crate::tree_step::Way;
use line_facts::LineEngine;
use picture::Picture;
use split_choice::Choice;
use std::alloc::{AllocError, Global};

// How often a bound of 1 grows fourfold until it saturates.
const MOST_ROUNDS: u32 = 32;

/// What is decided: a tree whose lines prove that there is no other picture, or another picture.
#[derive(Drop)]
pub enum Decided {
    Tree(Lines),
    OtherPicture(Picture),
}

/// How the ladder is climbed: how many lines a tree may evaluate at first, how many a judgement evaluated before, whether the known
/// picture guides the choice of cells, and whether the lines are kept. Trees that the judgement seems to have broken off are
/// skipped.
#[derive(Clone, Copy)]
pub struct Ladder {
    pub first_bound: u64,
    pub judging: u64,
    pub holds: bool,
    pub keeps: bool,
}

/// Writes a tree from a scene's facts, or finds a picture other than the scene's. Cells are chosen by looking ahead and as the
/// first open one in turn, each under a bound that grows fourfold, and once it can grow no more, without one. Trees whose bounds
/// the judgement has spent are skipped. The scene's picture need not have the clues.
pub fn climb<E: LineEngine>(
    alloc: Global,
    engine: &mut E,
    scene: &Scene,
    ladder: Ladder,
) -> Result<Decided, AllocError>
    requires { AreClosable scene.now.clues.now (E.longest engine.old) scene.now.facts.now }
    ensures decides { IfOk result
        (Decides scene.now.clues.now scene.now.picture.now scene.now.facts.now ladder.keeps) }
    ensures calls { E.calls engine.old ≤ E.calls engine.new }
    ensures same_longest { E.longest engine.new ≡ E.longest engine.old }
{
    let mut bound = ladder.first_bound;
    let mut spent = ladder.judging;
    // A judgement climbs from the bound of a part. Where it took more than four times the first bound, this climb begins there too,
    // and skips the trees that the judgement paid for.
    if spent > bound.saturating_mul(4) {
        bound = bound.saturating_mul(LONGER);
    } else {
        spent = 0;
    }
    for _ in 0..MOST_ROUNDS {
        if let Some(decided) = take_turn(alloc, engine, scene, ladder, bound, &mut spent)? {
            return Ok(decided);
        }
        bound = bound.saturating_mul(4);
    }
    let way = way_of(ladder, Choice::First, None);
    match write_tree(alloc, engine, scene, way, ladder.keeps)? {
        Some(decided) => Ok(decided),
        None => unreachable!(),
    }
}

/// Writes a tree by each of the two ways of `climb`, within a bound of evaluations for each, which a tree that is broken off
/// exceeds by no more than one for each line. A tree is skipped if `spent` exceeds the bound, which is then subtracted from
/// `spent`. None only if both were skipped or broken off; each that is broken off has reached the bound.
pub fn take_turn<E: LineEngine>(
    alloc: Global,
    engine: &mut E,
    scene: &Scene,
    ladder: Ladder,
    bound: u64,
    spent: &mut u64,
) -> Result<Option<Decided>, AllocError>
    requires { AreClosable scene.now.clues.now (E.longest engine.old) scene.now.facts.now }
    ensures decides { IfOk result (λ found. IfSome found
        (Decides scene.now.clues.now scene.now.picture.now scene.now.facts.now ladder.keeps)) }
    ensures calls { E.calls engine.old ≤ E.calls engine.new }
    ensures reached { spent.old ≤ bound → IfOk result (λ found.
        IfNone found (BothReach bound (E.calls engine.old) (E.calls engine.new))) }
    ensures few { E.calls engine.new
        ≤ E.calls engine.old + 2 * most_in_tree scene.now.facts.now bound }
    ensures same_longest { E.longest engine.new ≡ E.longest engine.old }
{
    for choice in [Choice::Look, Choice::First].iter() {
        if *spent > bound {
            *spent -= bound;
            continue;
        }
        let until = engine.calls().saturating_add(bound);
        let way = way_of(ladder, *choice, Some(until));
        let found = write_tree(alloc, engine, scene, way, ladder.keeps)?;
        if found.is_some() {
            return Ok(found);
        }
    }
    Ok(None)
}

// The way to write a tree, which is broken off when the engine's calls reach `until`, if that is set.
fn way_of(ladder: Ladder, choice: Choice, until: Option<u64>) -> Way
    ensures { result.until ≡ until }
{
    Way {
        choice,
        until,
        holds: ladder.holds,
    }
}
