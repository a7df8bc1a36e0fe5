//! Premises: colours excluded in cells of one line.

ghost use Rattle.std.specs.Prelude.{◌≡◌, ◌≤◌, ◌↔◌, length, IfOk, IsTrue};
ghost use Rattle.justify.specs.Premises.{ArePremises, Gathers};

use crate::masks::{MOST_CELLS, gather};
use smallvec::SmallVec;
use std::alloc::{AllocError, Global};
use std::marker::Model;

// A line of at most this many cells uses a small table.
const FEW_CELLS: usize = 32;

/// Colours that are excluded in one cell of a line: bit k stands for colour k.
#[derive(Clone, Copy, Debug, Default, PartialEq, Eq)]
pub struct Premise {
    /// The place along the line, from 0.
    pub at: u8,
    pub colours: u16,
}

/// Colours that are excluded in cells of a line, at ascending places, with at least one colour each. Up to 8 cells
/// need no heap memory.
#[derive(Drop)]
pub struct Premises {
    list: SmallVec<Premise, 8>,
}

impl Model for Premises {
    ghost use Rattle.std.specs.Prelude.{List};
    ghost use Rattle.justify.specs.declared.premise.Premise.{Premise};
    ghost use Rattle.justify.specs.Premises.{ArePremises};

    ghost Value = { List Premise };

    ghost view = { λ p. p.list.items };

    ghost invariant = { λ p. ArePremises p.list.items };
}

impl Premises {
    /// These premises, which must be at ascending places and have at least one colour each.
    pub fn from_slice(alloc: Global, premises: &[Premise]) -> Result<Premises, AllocError>
        requires { ArePremises premises.now }
        ensures { IfOk result (λ p. p ≡ premises.now) }
    {
        let list = SmallVec::from_slice(alloc, premises)?;
        Ok(Premises { list })
    }

    // The premises with the colours that the masks of a line have.
    pub(crate) fn from_masks(alloc: Global, masks: &[u16]) -> Result<Premises, AllocError>
        requires { length masks.now ≤ MOST_CELLS }
        ensures { IfOk result (Gathers masks.now) }
    {
        if masks.len() <= FEW_CELLS {
            Premises::from_few(alloc, masks)
        } else {
            Premises::from_many(alloc, masks)
        }
    }

    // As `from_masks`, with a small table, since a function clears its table first.
    fn from_few(alloc: Global, masks: &[u16]) -> Result<Premises, AllocError>
        requires { length masks.now ≤ FEW_CELLS }
        ensures { IfOk result (Gathers masks.now) }
    {
        let mut found = [Premise { at: 0, colours: 0 }; FEW_CELLS];
        let count = gather(masks, &mut found);
        Premises::from_slice(alloc, &found[..count])
    }

    // As `from_masks`, for any line.
    fn from_many(alloc: Global, masks: &[u16]) -> Result<Premises, AllocError>
        requires { length masks.now ≤ MOST_CELLS }
        ensures { IfOk result (Gathers masks.now) }
    {
        let mut found = [Premise { at: 0, colours: 0 }; MOST_CELLS];
        let count = gather(masks, &mut found);
        Premises::from_slice(alloc, &found[..count])
    }

    // The allocator of the premises.
    pub(crate) fn allocator(&self) -> Global {
        *self.list.allocator()
    }

    /// The premises at ascending places.
    pub fn as_slice(&self) -> &[Premise]
        ensures value { result.now ≡ self.now }
        ensures premises { ArePremises self.now }
    {
        self.list.as_slice()
    }

    /// Whether there is none.
    pub fn is_empty(&self) -> bool
        ensures { IsTrue result ↔ (length self.now ≡ 0) }
    {
        self.as_slice().is_empty()
    }

    /// A copy of the premises, or an error if out of memory.
    pub fn copy(&self) -> Result<Premises, AllocError>
        ensures { IfOk result (λ p. p ≡ self.now) }
    {
        Premises::from_slice(self.allocator(), self.as_slice())
    }
}
