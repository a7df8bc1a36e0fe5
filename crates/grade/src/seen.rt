//! What is seen in a look: the masks of the line's cells before it and after it.

ghost use Rattle.std.specs.Prelude.{◌≡◌, ◌+◌, ◌*◌, ◌-◌, ◌<◌, ◌≤◌, List, length, count_ones, IfOk};
ghost use Rattle.std.specs.List.{sum_by};
ghost use Rattle.picture.specs.Rows.{line_of, HasLine};
ghost use Rattle.grade.specs.Looks.{fall_at, falls_between};

use crate::look::Fall;
use crate::turn::Turn;
use line_facts::Facts;
use picture::{LineId, MAX_SIDE};
use std::alloc::{AllocError, Global};
use std::marker::Model;

// No line has more cells.
const MOST_CELLS: usize = MAX_SIDE as usize;

/// The masks of the cells of a line.
#[derive(Drop)]
pub struct LineMasks {
    cells: usize,
    masks: [u16; MOST_CELLS],
}

impl Model for LineMasks {
    ghost use Rattle.std.specs.Prelude.{◌≤◌, ℕ, List, take};
    ghost use Rattle.picture.specs.declared.picture.TheConstants.{MAX_SIDE};

    ghost Value = { List ℕ };

    ghost view = { λ m. take m.cells m.masks };

    ghost invariant = { λ m. m.cells ≤ MAX_SIDE };
}

impl LineMasks {
    // The masks of a line of the facts.
    pub(crate) fn of(facts: &Facts, line: LineId) -> LineMasks
        requires { HasLine facts.now line }
        ensures { result ≡ line_of facts.now line }
    {
        let cells = usize::from(facts.line_len(line));
        let mut masks = [0; MOST_CELLS];
        facts.copy_line(line, &mut masks[..cells]);
        LineMasks { cells, masks }
    }

    pub(crate) fn as_slice(&self) -> &[u16]
        ensures value { result.now ≡ self.now }
        ensures short { length result.now ≤ MAX_SIDE }
    {
        &self.masks[..self.cells]
    }
}

/// A look: whose turn it was, and the masks of the line's cells before it and after it.
#[derive(Drop)]
pub struct Seen {
    pub turn: Turn,
    pub before: LineMasks,
    pub after: LineMasks,
}

#[tactic(auto, using(crate::proofs::FallLemmas::falling))]
impl Seen {
    // How many colours were excluded in the cells of the line, taken together.
    pub(crate) fn excluded(&self) -> u32
        ensures { result ≡ sum_by count_ones self.now.before - sum_by count_ones self.now.after }
    {
        colours_in(self.before.as_slice()).saturating_sub(colours_in(self.after.as_slice()))
    }

    // How many cells fell.
    pub(crate) fn fallen(&self) -> usize
        requires { length self.now.after ≡ length self.now.before }
        ensures { result ≡ length (falls_between self.now.before self.now.after) }
    {
        let (before, after) = (self.before.as_slice(), self.after.as_slice());
        let mut count = 0;
        for place in 0..before.len() {
            if let Some(_fall) = fall_at(before, after, place) {
                count += 1;
            }
        }
        count
    }

    // The cells that fell, by rising place.
    pub(crate) fn falls(&self, alloc: Global) -> Result<Vec<Fall>, AllocError>
        requires { length self.now.after ≡ length self.now.before }
        ensures { IfOk result
            (λ falls. falls.items ≡ falls_between self.now.before self.now.after) }
    {
        let (before, after) = (self.before.as_slice(), self.after.as_slice());
        let mut falls = Vec::new(alloc);
        for place in 0..before.len() {
            if let Some(fall) = fall_at(before, after, place) {
                falls.push(fall)?;
            }
        }
        Ok(falls)
    }
}

// How many colours are left in all cells with these masks.
fn colours_in(masks: &[u16]) -> u32
    requires { length masks.now ≤ MAX_SIDE }
    ensures { result ≡ sum_by count_ones masks.now }
{
    let mut count = 0;
    for mask in masks {
        count += mask.count_ones();
    }
    count
}

// The fall of the cell at a place, if it falls between two lists of masks.
fn fall_at(before: &[u16], after: &[u16], place: usize) -> Option<Fall>
    requires before { place < length before.now }
    requires after { place < length after.now }
    requires short { place < MAX_SIDE }
    ensures { result ≡ fall_at before.now after.now place }
{
    let left = after[place];
    if before[place].count_ones() > 1 && left.count_ones() == 1 {
        Some(Fall {
            place: place as u8,
            colour: left.trailing_zeros() as u8,
        })
    } else {
        None
    }
}
