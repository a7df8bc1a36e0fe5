//! The search that writes a tree, whose lines may be kept or dropped. Each line is valid where it is written; the choice of cells
//! to split is free.

ghost use Rattle.std.specs.Prelude.{◌≡◌, ◌≤◌, IfNone, IfOk, IfSome, IsFalse, IsTrue};
ghost use Rattle.fixpoint.specs.ClosedFacts.{AreClosable};
ghost use Rattle.second_search.specs.Evaluations.{AreFewUntil, IsBrokenOff, last_call};
ghost use Rattle.second_search.specs.Trees.{Advances, AreNone, Decides, Turns};

use crate::ladder::Decided;
use crate::scene::Scene;
use crate::tree_closing::close_written;
use crate::tree_lines::{Lines, cell_number};
use crate::tree_step::{TreeStep, Way, next_step};
use cert_text::CertLine;
use fixpoint::all_lines;
use line_facts::{LineEngine, Outcome};
use picture::{LineSet, Picture};
use std::alloc::{AllocError, Global};
use trail::Trail;

// A tree that is being written: the branches that wait, its lines so far, and the rows and columns due at the current branch.
#[derive(Drop)]
pub(crate) struct Growing {
    pub trail: Trail,
    pub lines: Lines,
    pub due: LineSet,
}

// Writes a tree in one way from the facts of a scene, or finds a picture other than the scene's. None only if it was broken off,
// since the engine's calls have reached the way's. The scene's picture need not have the clues.
pub(crate) fn write_tree<E: LineEngine>(
    alloc: Global,
    engine: &mut E,
    scene: &Scene,
    way: Way,
    keeps: bool,
) -> Result<Option<Decided>, AllocError>
    requires { AreClosable scene.now.clues.now (E.longest engine.old) scene.now.facts.now }
    ensures decides { IfOk result (λ found. IfSome found
        (Decides scene.now.clues.now scene.now.picture.now scene.now.facts.now keeps)) }
    ensures broken_off { IfOk result (λ found.
        IfNone found (IsBrokenOff way.until (E.calls engine.new))) }
    ensures calls { E.calls engine.old ≤ E.calls engine.new }
    ensures few { AreFewUntil way.until scene.now.facts.now (E.calls engine.old)
        (E.calls engine.new) }
    ensures same_longest { E.longest engine.new ≡ E.longest engine.old }
{
    let mut growing = Growing {
        trail: Trail::start(alloc, scene.facts.copy()?),
        lines: no_lines(alloc, keeps),
        due: all_lines(scene.facts),
    };
    loop {
        let found = growing.turn(alloc, engine, scene, way)?;
        match found {
            Some(picture) => return Ok(Some(Decided::OtherPicture(picture))),
            None => {}
        }
        let goes = growing.advance()?;
        if !goes {
            let Growing { lines, .. } = growing;
            return Ok(Some(Decided::Tree(lines)));
        }
        if is_over(way, engine.calls()) {
            return Ok(None);
        }
    }
}

// No line yet.
fn no_lines(alloc: Global, keeps: bool) -> Lines
    ensures { AreNone keeps result }
{
    if keeps {
        Lines::Kept(Vec::new(alloc))
    } else {
        Lines::Dropped
    }
}

// Whether the engine was called so often that the tree is broken off.
fn is_over(way: Way, calls: u64) -> bool
    ensures over { IsTrue result → IsBrokenOff way.until calls }
    ensures before { IsFalse result → calls ≤ last_call way.until }
{
    match way.until {
        Some(until) => calls >= until,
        None => false,
    }
}

impl Growing {
    // Closes the current branch, and ends or splits it; or finds another picture.
    fn turn<E: LineEngine>(
        &mut self,
        alloc: Global,
        engine: &mut E,
        scene: &Scene,
        way: Way,
    ) -> Result<Option<Picture>, AllocError>
        requires { AreClosable scene.now.clues.now (E.longest engine.old) self.old.trail.at_hand }
        ensures turns { IfOk result
            (Turns scene.now.clues.now scene.now.picture.now self.old self.new) }
        ensures calls { E.calls engine.old ≤ E.calls engine.new }
        ensures few { AreFewUntil way.until self.old.trail.at_hand (E.calls engine.old)
            (E.calls engine.new) }
        ensures same_longest { E.longest engine.new ≡ E.longest engine.old }
    {
        let mut facts = self.trail.at_hand().copy()?;
        let outcome = close_written(
            engine,
            scene.clues,
            &mut facts,
            &self.due,
            &mut self.lines,
            way.calls(),
        )?;
        match outcome {
            Outcome::Dead => return Ok(None),
            Outcome::Narrowed => {}
        }
        self.trail.narrow(&facts, &all_lines(&facts))?;
        let _ = facts.height();
        let step = next_step(alloc, engine, scene, &facts, way)?;
        match step {
            TreeStep::Other(picture) => Ok(Some(picture)),
            TreeStep::Ends(line) => {
                self.lines.add(line)?;
                Ok(None)
            }
            TreeStep::Splits(cell) => {
                self.lines.add(CertLine::Split(cell_number(cell)))?;
                self.trail.split(cell)?;
                Ok(None)
            }
        }
    }

    // Goes on to the next branch that waits. False where there is none.
    fn advance(&mut self) -> Result<bool, AllocError>
        ensures { IfOk result (Advances self.old self.new) }
    {
        match self.trail.advance()? {
            Some(cell) => {
                self.due = cell.lines();
                Ok(true)
            }
            None => Ok(false),
        }
    }
}
