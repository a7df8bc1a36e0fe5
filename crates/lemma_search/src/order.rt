//! Which colour of which cell is decided next: the most active one, by a heap.

use crate::atom::{Atom, STRIDE, small};
use picture::MAX_COLOURS;
use std::alloc::{AllocError, Global};

// The place of an atom that is not in the heap.
const ABSENT: u32 = u32::MAX;

// Once an activity is above this, all are made smaller.
const MOST: f64 = 1e100;

// By how much.
const SCALE: f64 = 1e-100;

// By how much what happened before counts less after each conflict.
const DECAY: f64 = 0.88;

// A heap with places of 32 bits is not higher.
const HEIGHT: u32 = 32;

/// Atoms in a heap by how active they are.
#[derive(Drop)]
pub(crate) struct Order {
    activity: Vec<f64>,
    at: Vec<u32>,
    heap: Vec<Atom>,
    step: f64,
}

impl Order {
    /// An empty heap, for a picture with `height` rows.
    pub(crate) fn new(alloc: Global, height: u8) -> Result<Order, AllocError> {
        let atoms = usize::from(height) * STRIDE * usize::from(MAX_COLOURS);
        Ok(Order {
            activity: vec![in alloc; 0.0; atoms]?,
            at: vec![in alloc; ABSENT; atoms]?,
            heap: Vec::new(alloc),
            step: 1.0,
        })
    }

    fn activity(&self, atom: Atom) -> f64 {
        self.activity.get(atom.place()).copied().unwrap_or(0.0)
    }

    // Where in the heap an atom is.
    fn at(&self, atom: Atom) -> u32 {
        self.at.get(atom.place()).copied().unwrap_or(ABSENT)
    }

    fn set_at(&mut self, atom: Atom, to: u32) {
        if let Some(at) = self.at.get_mut(atom.place()) {
            *at = to;
        }
    }

    fn put_at(&mut self, i: usize, atom: Atom) {
        if let Some(slot) = self.heap.get_mut(i) {
            *slot = atom;
        }
        self.set_at(atom, small(i));
    }

    // Moves an atom up from a place to where it belongs.
    fn rise(&mut self, from: usize, atom: Atom) {
        let mut i = from;
        for _ in 0..HEIGHT {
            if i == 0 {
                break;
            }
            let above = (i - 1) / 2;
            let Some(other) = self.heap.get(above).copied() else {
                break;
            };
            if self.activity(other) >= self.activity(atom) {
                break;
            }
            self.put_at(i, other);
            i = above;
        }
        self.put_at(i, atom);
    }

    // The more active one of the two atoms below a place, and its place.
    fn busiest_below(&self, i: usize) -> Option<(usize, Atom)> {
        let first = i.saturating_mul(2).saturating_add(1);
        let second = first.saturating_add(1);
        let left = self.heap.get(first).copied()?;
        match self.heap.get(second).copied() {
            Some(right) if self.activity(right) > self.activity(left) => Some((second, right)),
            _ => Some((first, left)),
        }
    }

    // Moves an atom down from the top to where it belongs.
    fn sink(&mut self, atom: Atom) {
        let mut i = 0;
        for _ in 0..HEIGHT {
            let Some((below, other)) = self.busiest_below(i) else {
                break;
            };
            if self.activity(other) <= self.activity(atom) {
                break;
            }
            self.put_at(i, other);
            i = below;
        }
        self.put_at(i, atom);
    }

    /// Puts an atom into the heap, which may have it already.
    pub(crate) fn put(&mut self, atom: Atom) -> Result<(), AllocError> {
        if self.at(atom) == ABSENT {
            let i = self.heap.len();
            self.heap.push(atom)?;
            self.rise(i, atom);
        }
        Ok(())
    }

    /// Takes the most active atom.
    pub(crate) fn take(&mut self) -> Option<Atom> {
        let first = self.heap.first().copied()?;
        self.set_at(first, ABSENT);
        let last = self.heap.pop()?;
        if last != first {
            self.sink(last);
        }
        Some(first)
    }

    /// Makes an atom more active.
    pub(crate) fn bump(&mut self, atom: Atom) {
        let more = self.activity(atom) + self.step;
        if let Some(activity) = self.activity.get_mut(atom.place()) {
            *activity = more;
        }
        if more > MOST {
            self.shrink();
        }
        let i = self.at(atom);
        if i != ABSENT {
            self.rise(i as usize, atom);
        }
    }

    fn shrink(&mut self) {
        for activity in self.activity.iter_mut() {
            *activity = *activity * SCALE;
        }
        self.step = self.step * SCALE;
    }

    /// Lets what happened before count less.
    pub(crate) fn decay(&mut self) {
        self.step = self.step / DECAY;
    }
}
