//! The base of a document: facts that hold each given to its colour.

ghost use Rattle.std.specs.Prelude.{◌≡◌, ℕ, ◌<◌, ◌↔◌, length, IfOk, IsBitSet};
ghost use Rattle.picture.specs.Rows.{width_of};
ghost use Rattle.line_facts.specs.FactSets.{IsBase, IsOpen, MakesBaseRow, SameShape};

use crate::facts::Facts;
use picture::Document;
use picture::laws::cells_are_members;
use std::alloc::{AllocError, Global};

impl Facts {
    /// The facts of a document's givens alone: in each given every colour but the picture's is excluded.
    pub fn base(alloc: Global, document: &Document) -> Result<Facts, AllocError>
        ensures { IfOk result (λ f. IsBase document.now.givens document.now.picture f) }
    {
        let height = document.picture.height();
        let mut facts = Facts::none(alloc, height, document.picture.width())?;
        cells_are_members();
        if document.givens.is_empty() {
            return Ok(facts);
        }
        for row in 0..height {
            make_base_row(document, &mut facts, row);
        }
        Ok(facts)
    }
}

// Sets the masks of a row to the colours that the givens leave there.
fn make_base_row(document: &Document, facts: &mut Facts, row: u8)
    requires same_shape { SameShape document.now.picture facts.old }
    requires in_rows { row < length document.now.picture }
    ensures { MakesBaseRow document.now.givens document.now.picture facts.old facts.new row }
{
    for col in 0..document.picture.width() {
        facts.set_left(row, col, base_mask(document, row, col));
    }
}

#[tactic(auto, using(crate::proofs::BaseLemmas::masks))]
// The colours that the givens leave in a cell.
fn base_mask(document: &Document, row: u8, col: u8) -> u16
    requires in_rows { row < length document.now.picture }
    requires in_columns { col < width_of document.now.picture }
    ensures { (k : ℕ) → IsBitSet result k
        ↔ IsOpen document.now.givens document.now.picture row col k }
{
    let colour = document.picture.cell(row, col);
    if document.givens.has(row, col) {
        1 << colour
    } else {
        u16::MAX
    }
}
