//! The lines that need no tables: those whose cells all show a colour, and those without blocks. The functions that narrow
//! them are not inlined, since inlining makes the caller slower on open lines.

ghost use Rattle.std.specs.Prelude.{◌≡◌, ◌↔◌, ◌≤◌, length, [], IsTrue};
ghost use Rattle.std.specs.List.{All};
ghost use Rattle.clues.specs.Clue.{clue_of};
ghost use Rattle.line_facts.specs.NarrowedLine.{Narrows};
ghost use Rattle.line_settle.specs.Patterns.{allows};
ghost use Rattle.line_settle.specs.Shown.{AreShown, IsShown, lowest_colours};

use crate::pattern::allows;
use clues::{Block, without_run};
use line_facts::{Outcome, only_colour};
use picture::MAX_SIDE;

/// Narrows a line whose clue is empty: it can only be background.
#[inline(never)]
pub fn narrow_without_blocks(left: &[u16], out: &mut [u16]) -> Outcome
    requires { length left.now ≡ length out.old }
    ensures { Narrows [] left.now result out.new }
{
    if allow_background(left) {
        out.fill(1);
        Outcome::Narrowed
    } else {
        out.fill(0);
        Outcome::Dead
    }
}

// Whether background is left in each cell. The loop has no early exit, so that several cells can be taken at once.
fn allow_background(left: &[u16]) -> bool
    ensures { IsTrue result ↔ All (λ mask. IsTrue (allows mask 0)) left.now }
{
    let mut common = u16::MAX;
    for mask in left {
        common &= *mask;
    }
    allows(common, 0)
}

/// Whether each cell has just one colour left.
pub fn are_shown(left: &[u16]) -> bool
    ensures { IsTrue result ↔ AreShown left.now }
{
    left.iter().all(|mask| has_one_colour(*mask))
}

// Whether a mask has just one colour.
fn has_one_colour(mask: u16) -> bool
    ensures { IsTrue result ↔ IsShown mask }
{
    only_colour(mask).is_some()
}

/// Narrows a line of cells that show a colour: it stays as it is if its colours have the clue, and is dead otherwise.
#[inline(never)]
pub fn narrow_shown(blocks: &[Block], left: &[u16], out: &mut [u16]) -> Outcome
    requires shown { AreShown left.now }
    requires short { length left.now ≤ MAX_SIDE }
    requires same_length { length left.now ≡ length out.old }
    ensures { Narrows blocks.now left.now result out.new }
{
    if has_clue(blocks, left) {
        out.copy_from_slice(left);
        Outcome::Narrowed
    } else {
        out.fill(0);
        Outcome::Dead
    }
}

#[tactic(auto, using(crate::proofs::ShownLemmas::walking))]
// Whether the blocks are the clue of the cells' lowest colours.
fn has_clue(blocks: &[Block], left: &[u16]) -> bool
    requires { length left.now ≤ MAX_SIDE }
    ensures { IsTrue result ↔ (clue_of (lowest_colours left.now) ≡ blocks.now) }
{
    let mut owed = blocks;
    let mut run = Block { len: 0, colour: 0 };
    for mask in left {
        let colour = mask.trailing_zeros() as u8;
        if colour == run.colour {
            run.len += 1;
        } else {
            let Some(rest) = without_run(owed, run) else {
                return false;
            };
            owed = rest;
            run = Block { len: 1, colour };
        }
    }
    let Some(rest) = without_run(owed, run) else {
        return false;
    };
    rest.is_empty()
}
