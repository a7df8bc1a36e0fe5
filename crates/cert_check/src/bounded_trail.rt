//! A trail that never runs out of memory: what its notes can need is taken before.

ghost use Rattle.std.specs.Prelude.{◌≡◌, ◌+◌, ◌<◌, ◌≤◌, ◌∷◌, ◌⊎◌, ◌↔◌, [], bit_and, length, reverse, vec_capacity, vec_len, ℕ, IsBitSet, IsTrue, MatchOption};
ghost use Rattle.std.specs.Int.{bit_not, w16};
ghost use Rattle.picture.specs.Rows.{cell_at, width_of, with_cell};
ghost use Rattle.line_facts.specs.FactSets.{IsFacts, SameShape};
ghost use Rattle.cert_check.specs.Notes.{AreInside, IsInside, Notes, PutsBack, Spends, most_notes, with_mask};

use crate::note::{Branch, CellMask, Note};
use line_facts::Facts;
use std::marker::Model;
use trail::Cell;

// The facts of the branch at hand, and notes of the branches that wait, the newest last. A change is noted only while a branch
// waits. `parts` is how many parts may still be made that leave nothing on one side.
#[derive(Drop)]
pub(crate) struct BoundedTrail {
    facts: Facts,
    notes: Vec<Note>,
    parts: usize,
}

impl Model for BoundedTrail {
    ghost use Rattle.std.specs.Prelude.{reverse, vec_capacity};
    ghost use Rattle.cert_check.specs.Notes.{IsBounded, Walked, behind_of, numbers_of, walked};

    ghost Value = { Walked };

    ghost view = { λ t. walked t.facts (behind_of t.facts (reverse t.notes.items))
        (numbers_of (reverse t.notes.items)) t.parts };

    ghost invariant = { λ t. IsBounded t.facts (reverse t.notes.items) t.parts (vec_capacity t.notes) };
}

impl BoundedTrail {
    // A trail with these facts at hand, on which no branch waits.
    pub(crate) fn start(facts: Facts, notes: Vec<Note>, parts: usize) -> BoundedTrail
        requires empty { notes.items ≡ [] }
        requires enough { most_notes (length facts) (width_of facts) parts ≤ vec_capacity notes }
        ensures at_hand { result.at_hand ≡ facts }
        ensures behind { result.behind ≡ [] }
        ensures waits { result.waits ≡ [] }
        ensures parts { result.parts ≡ parts }
    {
        let _ = facts.height();
        BoundedTrail {
            facts,
            notes,
            parts,
        }
    }

    // The facts of the branch at hand.
    pub(crate) fn at_hand(&self) -> &Facts
        ensures { result.now ≡ self.now.at_hand }
    {
        &self.facts
    }

    // Whether no branch waits.
    pub(crate) fn is_last(&self) -> bool
        ensures { IsTrue result ↔ (self.now.behind ≡ []) }
    {
        self.notes.is_empty()
    }

    // Sets the mask of a cell of the facts at hand to some of the colours that are left there.
    #[inline]
    pub(crate) fn hold(&mut self, cell: Cell, held: u16)
        requires in_rows { cell.row < length self.old.at_hand }
        requires in_columns { cell.col < width_of self.old.at_hand }
        requires left { (k : ℕ) → IsBitSet held k
            → IsBitSet (cell_at self.old.at_hand cell.row cell.col) k }
        ensures at_hand { self.new.at_hand
            ≡ with_cell self.old.at_hand cell.row cell.col held }
        ensures behind { self.new.behind ≡ self.old.behind }
        ensures waits { self.new.waits ≡ self.old.waits }
        ensures parts { self.new.parts ≡ self.old.parts }
        ensures facts { IsFacts self.old.at_hand }
    {
        let Cell { row, col } = cell;
        let _ = self.facts.height();
        let mask = held;
        change(
            &mut self.facts,
            &mut self.notes,
            CellMask { row, col, mask },
        );
    }

    // Takes some colours from a cell of the facts at hand. The branch with these alone waits before all others, with the number
    // that is kept for it.
    pub(crate) fn part(&mut self, cell: Cell, colours: u16, strays: u16)
        requires in_rows { cell.row < length self.old.at_hand }
        requires in_columns { cell.col < width_of self.old.at_hand }
        requires parts { (0 < self.old.parts)
            ⊎ ((0 < bit_and (cell_at self.old.at_hand cell.row cell.col) colours)
            × (0 < bit_and (cell_at self.old.at_hand cell.row cell.col) (bit_not w16 colours))) }
        ensures at_hand { self.new.at_hand ≡ with_cell self.old.at_hand cell.row cell.col
            (bit_and (cell_at self.old.at_hand cell.row cell.col) (bit_not w16 colours)) }
        ensures behind { self.new.behind ≡ with_cell self.old.at_hand cell.row cell.col
            (bit_and (cell_at self.old.at_hand cell.row cell.col) colours) ∷ self.old.behind }
        ensures waits { self.new.waits ≡ strays ∷ self.old.waits }
        ensures parts { self.old.parts ≤ self.new.parts + 1 }
        ensures kept { 0 < bit_and (cell_at self.old.at_hand cell.row cell.col) colours
            → 0 < bit_and (cell_at self.old.at_hand cell.row cell.col) (bit_not w16 colours)
            → self.new.parts ≡ self.old.parts }
    {
        let Cell { row, col } = cell;
        let left = self.facts.left(row, col);
        let (held, rest) = (left & colours, left & !colours);
        self.parts = spend(self.parts, held, rest);
        let mask = held;
        let cell = CellMask { row, col, mask };
        self.notes
            .push_reserved(Note::Wait(Branch { cell, strays }));
        let mask = rest;
        change(
            &mut self.facts,
            &mut self.notes,
            CellMask { row, col, mask },
        );
    }

    // The facts at hand wait as they are, where no branch does, with the number that is kept for them.
    pub(crate) fn keep_waiting(&mut self, strays: u16)
        requires { self.old.behind ≡ [] }
        ensures at_hand { self.new.at_hand ≡ self.old.at_hand }
        ensures behind { self.new.behind ≡ self.old.at_hand ∷ [] }
        ensures waits { self.new.waits ≡ strays ∷ [] }
        ensures parts { self.new.parts ≡ self.old.parts }
    {
        let _ = self.facts.height();
        let mask = self.facts.left(0, 0);
        let (row, col) = (0, 0);
        let cell = CellMask { row, col, mask };
        self.notes
            .push_reserved(Note::Wait(Branch { cell, strays }));
    }

    // Drops the facts at hand and begins the next branch that waits. Answers the number that was kept for it, or None where no
    // branch waits.
    pub(crate) fn advance(&mut self) -> Option<u16>
        ensures goes_on { MatchOption result (self.old.behind ≡ []) (λ strays.
            (self.old.behind ≡ self.new.at_hand ∷ self.new.behind)
            × (self.old.waits ≡ strays ∷ self.new.waits)) }
        ensures same_shape { SameShape self.old.at_hand self.new.at_hand }
        ensures parts { self.new.parts ≡ self.old.parts }
    {
        let begun = put_back(&mut self.facts, &mut self.notes);
        let _ = self.facts.height();
        let Branch { cell, strays } = begun?;
        change(&mut self.facts, &mut self.notes, cell);
        Some(strays)
    }
}

// How many parts may still be made after one that leaves these colours on its two sides.
fn spend(parts: usize, held: u16, rest: u16) -> usize
    requires { (0 < parts) ⊎ ((0 < held) × (0 < rest)) }
    ensures spends { Spends held rest parts result }
    ensures few { parts ≤ result + 1 }
    ensures kept { 0 < held → 0 < rest → result ≡ parts }
{
    if held == 0 || rest == 0 {
        parts - 1
    } else {
        parts
    }
}

// Sets the mask of a cell, and notes the one that it had where the two differ and a branch waits.
fn change(facts: &mut Facts, notes: &mut Vec<Note>, cell: CellMask)
    requires inside { IsInside facts.old cell }
    requires room { (cell_at facts.old cell.row cell.col ≡ cell.mask → ⊥)
        → vec_len notes.old < vec_capacity notes.old }
    ensures facts { facts.new ≡ with_mask facts.old cell }
    ensures notes { Notes facts.old cell (reverse notes.old.items) (reverse notes.new.items) }
    ensures capacity { vec_capacity notes.new ≡ vec_capacity notes.old }
    ensures are { IsFacts facts.old }
{
    let CellMask { row, col, mask } = cell;
    let left = facts.left(row, col);
    if left != mask {
        facts.set_left(row, col, mask);
        if !notes.is_empty() {
            let mask = left;
            notes.push_reserved(Note::Restore(CellMask { row, col, mask }));
        }
    }
}

// Restores masks by the newest notes, down to the first branch that waits, whose note is popped too.
fn put_back(facts: &mut Facts, notes: &mut Vec<Note>) -> Option<Branch>
    requires { AreInside facts.old (reverse notes.old.items) }
    ensures puts_back { PutsBack facts.old (reverse notes.old.items) facts.new
        (reverse notes.new.items) result }
    ensures inside { AreInside facts.new (reverse notes.new.items) }
    ensures same_shape { SameShape facts.old facts.new }
    ensures capacity { vec_capacity notes.new ≡ vec_capacity notes.old }
{
    while let Some(note) = notes.pop() {
        match note {
            Note::Restore(cell) => facts.set_left(cell.row, cell.col, cell.mask),
            Note::Wait(branch) => return Some(branch),
        }
    }
    None
}
