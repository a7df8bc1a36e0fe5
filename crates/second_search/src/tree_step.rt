//! What comes next on a closed branch of a tree.

ghost use Rattle.std.specs.Prelude.{◌≡◌, ◌+◌, ◌≤◌, ◌↔◌, length, max, IfOk, IfSome, IsTrue, MatchOption};
ghost use Rattle.picture.specs.Rows.{HasLine, line_of, lines_along, width_of};
ghost use Rattle.clues.specs.ClueBook.{clue_at};
ghost use Rattle.line_facts.specs.Fits.{CanFit};
ghost use Rattle.fixpoint.specs.ClosedFacts.{AreClosable, EachFits};
ghost use Rattle.second_search.specs.Evaluations.{AreFewUntil, last_call};
ghost use Rattle.second_search.specs.Trees.{Continues, EachFitsAlong, IsComparedTo, IsDeadLine, IsOtherIn};

use crate::looking::{first_unsettled, shown_picture};
use crate::scene::Scene;
use crate::tree_lines::line_number;
use cert_text::CertLine;
use clues::ClueBook;
use fixpoint::all_lines;
use line_facts::{Facts, LineEngine, Outcome, force};
use picture::{Axis, LineId, Picture};
use split_choice::{Choice, Chosen, Node, Puzzle, choose, filled, fills_all, leaves};
use std::alloc::{AllocError, Global};
use trail::Cell;

// What comes next: a line that ends the branch, a cell to split, or a picture other than the known one.
#[derive(Drop)]
pub(crate) enum TreeStep {
    Ends(CertLine),
    Splits(Cell),
    Other(Picture),
}

// How a tree is written: how cells are chosen, at how many of the engine's calls the tree is broken off, if at all, and whether the
// known picture guides the choice.
#[derive(Clone, Copy)]
pub(crate) struct Way {
    pub choice: Choice,
    pub until: Option<u64>,
    pub holds: bool,
}

impl Way {
    // At how many of the engine's calls the tree is broken off; never, if it is not.
    pub(crate) fn calls(self) -> u64
        ensures { result ≡ last_call self.until }
    {
        self.until.unwrap_or(u64::MAX)
    }
}

// What comes next on a branch; the step is valid even where the branch is not closed. Where `choose` names no cell, the first one
// in which not just one colour is left is split; where each has one, the picture that the branch shows is the known one or another,
// or some line is dead. Once the engine has counted the way's calls, it is called for no more than each line.
pub(crate) fn next_step<E: LineEngine>(
    alloc: Global,
    engine: &mut E,
    scene: &Scene,
    facts: &Facts,
    way: Way,
) -> Result<TreeStep, AllocError>
    requires { AreClosable scene.now.clues.now (E.longest engine.old) facts.now }
    ensures continues { IfOk result
        (Continues scene.now.clues.now scene.now.picture.now facts.now) }
    ensures calls { E.calls engine.old ≤ E.calls engine.new }
    ensures few { AreFewUntil way.until facts.now (E.calls engine.old) (E.calls engine.new) }
    ensures same_longest { E.longest engine.new ≡ E.longest engine.old }
{
    let _ = facts.height();
    let node = node_at(scene, facts, way);
    if let Some(picture) = other_here(alloc, scene, &node)? {
        return Ok(TreeStep::Other(picture));
    }
    match choose(alloc, engine, &node, way.choice, way.calls())? {
        Chosen::Splits(cell) => return Ok(TreeStep::Splits(cell)),
        Chosen::Nothing => {}
        Chosen::Fills(trial) => {
            if let Some(picture) = other_in(alloc, scene, &node.puzzle, facts, &trial)? {
                return Ok(TreeStep::Other(picture));
            }
        }
    }
    if let Some(cell) = first_unsettled(facts, &all_lines(facts), 0) {
        return Ok(TreeStep::Splits(cell));
    }
    let shown = shown_picture(alloc, facts)?;
    if scene.clues.has_clues(&shown) {
        return Ok(compared(shown, scene.picture));
    }
    let dead = dead_line(engine, scene.clues, facts)?;
    match dead {
        Some(line) => Ok(TreeStep::Ends(CertLine::Dead(line_number(line)))),
        None => unreachable!(),
    }
}

// The branch as `choose` takes it.
fn node_at<'a>(scene: &Scene<'a>, facts: &'a Facts, way: Way) -> Node<'a>
    ensures { result.facts.now ≡ facts.now }
{
    let held = if way.holds { Some(scene.picture) } else { None };
    Node {
        puzzle: Puzzle {
            clues: scene.clues,
            held,
        },
        facts,
        own: way.holds && leaves(facts, scene.picture),
    }
}

// Another picture on a branch, where the held picture's colours fill its open cells.
fn other_here(alloc: Global, scene: &Scene, node: &Node) -> Result<Option<Picture>, AllocError>
    ensures { IfOk result (λ found.
        IfSome found (IsOtherIn scene.now.clues.now scene.now.picture.now node.now.facts.now)) }
{
    if node.own || !fills_all(&node.puzzle, node.facts) {
        return Ok(None);
    }
    other_in(alloc, scene, &node.puzzle, node.facts, node.facts)
}

// Another picture on a branch: the one that `shown` shows, with the held picture's colours in open cells.
fn other_in(
    alloc: Global,
    scene: &Scene,
    puzzle: &Puzzle,
    facts: &Facts,
    shown: &Facts,
) -> Result<Option<Picture>, AllocError>
    ensures { IfOk result (λ found.
        IfSome found (IsOtherIn scene.now.clues.now scene.now.picture.now facts.now)) }
{
    let picture = filled(alloc, puzzle, shown)?;
    if is_other_in(scene, facts, &picture) {
        Ok(Some(picture))
    } else {
        Ok(None)
    }
}

// Whether a picture fills facts and is not the known one.
pub(crate) fn is_other_in(scene: &Scene, facts: &Facts, picture: &Picture) -> bool
    ensures { IsTrue result → IsOtherIn scene.now.clues.now
        scene.now.picture.now facts.now picture.now }
{
    !picture.same(scene.picture) && scene.clues.has_clues(picture) && leaves(facts, picture)
}

// What a picture that has the clues is: the known one, which ends the branch, or another.
fn compared(picture: Picture, known: &Picture) -> TreeStep
    ensures { IsComparedTo known.now picture result }
{
    if picture.same(known) {
        TreeStep::Ends(CertLine::Done)
    } else {
        TreeStep::Other(picture)
    }
}

#[tactic(auto, using(crate::proofs::TreeLemmas::all_fit))]
// The first line that no list fits, if there is one.
fn dead_line<E: LineEngine>(
    engine: &mut E,
    clues: &ClueBook,
    facts: &Facts,
) -> Result<Option<LineId>, AllocError>
    requires { AreClosable clues.now (E.longest engine.old) facts.now }
    ensures dead { IfOk result (λ found.
        MatchOption found (EachFits clues.now facts.now) (IsDeadLine clues.now facts.now)) }
    ensures calls { E.calls engine.old ≤ E.calls engine.new }
    ensures few { E.calls engine.new
        ≤ E.calls engine.old + (length facts.now + width_of facts.now) }
    ensures same_longest { E.longest engine.new ≡ E.longest engine.old }
{
    if let Some(line) = dead_along(engine, clues, facts, Axis::Across)? {
        return Ok(Some(line));
    }
    dead_along(engine, clues, facts, Axis::Down)
}

#[tactic(auto, using(crate::proofs::KeepLemmas::sized_lines))]
// The first such line along an axis.
fn dead_along<E: LineEngine>(
    engine: &mut E,
    clues: &ClueBook,
    facts: &Facts,
    axis: Axis,
) -> Result<Option<LineId>, AllocError>
    requires { AreClosable clues.now (E.longest engine.old) facts.now }
    ensures dead { IfOk result (λ found. MatchOption found (EachFitsAlong clues.now facts.now axis)
        (IsDeadLine clues.now facts.now)) }
    ensures calls { E.calls engine.old ≤ E.calls engine.new }
    ensures few { E.calls engine.new ≤ E.calls engine.old + lines_along axis facts.now }
    ensures same_longest { E.longest engine.new ≡ E.longest engine.old }
{
    for at in 0..clues.line_count(axis) {
        let line = LineId { axis, at };
        if !some_fits(engine, clues, facts, line)? {
            return Ok(Some(line));
        }
    }
    Ok(None)
}

// Whether some list fits a line.
fn some_fits<E: LineEngine>(
    engine: &mut E,
    clues: &ClueBook,
    facts: &Facts,
    line: LineId,
) -> Result<bool, AllocError>
    requires closable { AreClosable clues.now (E.longest engine.old) facts.now }
    requires line { HasLine facts.now line }
    ensures fits { IfOk result (λ fits.
        IsTrue fits ↔ CanFit (clue_at clues.now line) (line_of facts.now line)) }
    ensures calls { E.calls engine.old ≤ E.calls engine.new }
    ensures once { E.calls engine.new ≤ E.calls engine.old + 1 }
    ensures same_longest { E.longest engine.new ≡ E.longest engine.old }
{
    let _ = (facts.height(), engine.calls());
    let mut trial = facts.copy()?;
    let mut count = 0;
    match force(engine, &mut trial, clues.clue(line), line, &mut count) {
        Outcome::Dead => Ok(false),
        Outcome::Narrowed => Ok(true),
    }
}
