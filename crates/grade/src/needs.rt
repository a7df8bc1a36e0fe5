//! What a look needs of its line, and whether all blocks of the line stand before it.

ghost use Rattle.std.specs.Prelude.{◌≡◌, ◌<◌, ◌≤◌, ◌↔◌, length, IfOk, IsTrue};
ghost use Rattle.clues.specs.Clue.{clue_of};
ghost use Rattle.grade.specs.Needs.{AreDrawn, AreLeft, AreNeeded, Stand, known_colour, known_colours, premise_at, premises_of};

use crate::seen::Seen;
use clues::{Block, Clue, without_run};
use justify::Premise;
use line_settle::leave_out;
use picture::MAX_SIDE;
use std::alloc::{AllocError, Global};

// No line has more cells.
const MOST_CELLS: usize = MAX_SIDE as usize;

impl Seen {
    // The premises that the look needs. No line is evaluated for them.
    pub(crate) fn premises(&self, alloc: Global, clue: &Clue) -> Result<Vec<Premise>, AllocError>
        requires same_length { length self.now.after ≡ length self.now.before }
        requires left { AreLeft clue.now self.now.before self.now.after }
        ensures { IfOk result (λ premises.
            AreNeeded clue.now self.now.before self.now.after premises.items) }
    {
        let (before, after) = (self.before.as_slice(), self.after.as_slice());
        let mut left = [0; MOST_CELLS];
        let mut drawn = [0; MOST_CELLS];
        let cells = before.len();
        let left = &mut left[..cells];
        let drawn = &mut drawn[..cells];
        left.copy_from_slice(before);
        note_drawn(before, after, drawn);
        leave_out(clue, drawn, left);
        gather(alloc, left)
    }

    // Whether all blocks of the line stand before the look.
    pub(crate) fn stands(&self, clue: &Clue) -> bool
        ensures { IsTrue result ↔ Stand clue.now self.now.before }
    {
        have_clue(clue.blocks(), self.before.as_slice())
    }
}

// Notes what is drawn between two lists of masks.
fn note_drawn(before: &[u16], after: &[u16], drawn: &mut [u16])
    requires before { length before.now ≡ length drawn.old }
    requires after { length after.now ≡ length drawn.old }
    ensures same_length { length drawn.new ≡ length drawn.old }
    ensures drawn { AreDrawn before.now after.now drawn.new }
{
    for place in 0..drawn.len() {
        drawn[place] = before[place] & !after[place];
    }
}

#[tactic(auto, using(crate::proofs::FallLemmas::falling))]
// What the masks of a line exclude, by rising place.
fn gather(alloc: Global, masks: &[u16]) -> Result<Vec<Premise>, AllocError>
    requires { length masks.now ≤ MAX_SIDE }
    ensures { IfOk result (λ premises. premises.items ≡ premises_of masks.now) }
{
    let mut premises = Vec::new(alloc);
    for place in 0..masks.len() {
        if let Some(premise) = premise_at(masks, place) {
            premises.push(premise)?;
        }
    }
    Ok(premises)
}

// What a mask excludes in the cell at a place, if anything.
fn premise_at(masks: &[u16], place: usize) -> Option<Premise>
    requires inside { place < length masks.now }
    requires short { place < MAX_SIDE }
    ensures { result ≡ premise_at masks.now place }
{
    let left = masks[place];
    if left == u16::MAX {
        return None;
    }
    Some(Premise {
        at: place as u8,
        colours: !left,
    })
}

#[tactic(auto, using(crate::proofs::StandLemmas::walking))]
// Whether the blocks are the clue of the settled cells.
fn have_clue(blocks: &[Block], masks: &[u16]) -> bool
    requires { length masks.now ≤ MAX_SIDE }
    ensures { IsTrue result ↔ (clue_of (known_colours masks.now) ≡ blocks.now) }
{
    let mut owed = blocks;
    let mut run = Block { len: 0, colour: 0 };
    for mask in masks {
        let colour = known_colour(*mask);
        if colour == run.colour {
            run.len += 1;
        } else {
            let Some(rest) = without_run(owed, run) else {
                return false;
            };
            owed = rest;
            run = Block { len: 1, colour };
        }
    }
    let Some(rest) = without_run(owed, run) else {
        return false;
    };
    rest.is_empty()
}

// The colour of a settled cell, and the background for an open one.
fn known_colour(mask: u16) -> u8
    ensures { result ≡ known_colour mask }
{
    if mask.count_ones() > 1 {
        0
    } else {
        mask.trailing_zeros() as u8
    }
}
