//! The automaton of a clue: which states the cells of its line go through.

use crate::atom::has;
use clues::Block;
use std::alloc::{AllocError, Global};

// Up to how many colours the sets of them have moves of their own.
const FEW: usize = 5;

// How many states a set can have.
const STATES: u32 = 128;

/// The automaton of a clue. A state is how much of the clue's pattern is done: the cells of its blocks, and the
/// background cell between two blocks of one colour. Bit n of a set stands for state n.
#[derive(Drop)]
pub(crate) struct Automaton {
    // For each colour the states from which it leads to the next state.
    moves: Vec<u128>,
    // Where the colours are few, for each set of them the states from which one of it leads to the next state.
    by_sets: Vec<u128>,
    // The states that a background cell may leave as they are.
    rests: u128,
    // The set of the last state, in which the whole clue is done.
    pub ends: u128,
}

/// The set of the first state, in which nothing is done.
pub(crate) const START: u128 = 1;

// The set of a state alone.
fn state(at: u32) -> u128 {
    if at < STATES { 1 << at } else { 0 }
}

impl Automaton {
    /// The automaton of a clue's blocks.
    pub(crate) fn of(alloc: Global, blocks: &[Block]) -> Result<Automaton, AllocError> {
        let most = blocks.iter().map(|block| block.colour).max().unwrap_or(0);
        let mut made = Automaton {
            moves: vec![in alloc; 0; usize::from(most) + 1]?,
            by_sets: Vec::new(alloc),
            rests: 0,
            ends: 0,
        };
        let mut at = 0;
        let mut last = 0;
        for block in blocks {
            if block.colour == last {
                at = made.lay(0, at);
            }
            made.rests |= state(at);
            for _ in 0..block.len {
                at = made.lay(block.colour, at);
            }
            last = block.colour;
        }
        made.rests |= state(at);
        made.ends = state(at);
        made.note_sets()?;
        Ok(made)
    }

    // Notes the moves of each set of colours, where there are few.
    fn note_sets(&mut self) -> Result<(), AllocError> {
        if self.moves.len() <= FEW {
            for colours in 0..(1u16 << self.moves.len()) {
                let moves = self.join(colours);
                self.by_sets.push(moves)?;
            }
        }
        Ok(())
    }

    // Lets a colour lead from a state to the next one, and answers that.
    fn lay(&mut self, colour: u8, at: u32) -> u32 {
        if let Some(moves) = self.moves.get_mut(usize::from(colour)) {
            *moves |= state(at);
        }
        at.saturating_add(1)
    }

    /// The colours of the clue and background.
    pub(crate) fn own(&self) -> u16 {
        if self.moves.len() < 16 {
            (1 << self.moves.len()) - 1
        } else {
            u16::MAX
        }
    }

    // The states from which at least one of the colours leads to the next state.
    fn moves_by(&self, colours: u16) -> u128 {
        match self.by_sets.get(usize::from(colours & self.own())) {
            Some(moves) => *moves,
            None => self.join(colours),
        }
    }

    // The same, joined from the colours.
    fn join(&self, colours: u16) -> u128 {
        let mut all = 0;
        let mut rest = colours;
        for moves in &self.moves {
            if rest & 1 == 1 {
                all |= *moves;
            }
            rest >>= 1;
        }
        all
    }

    // The states of a set that a background cell may leave as they are, if background is among the colours.
    fn resting(&self, colours: u16, states: u128) -> u128 {
        if has(colours, 0) {
            states & self.rests
        } else {
            0
        }
    }

    /// The states after a cell that has one of some colours.
    pub(crate) fn forward(&self, colours: u16, from: u128) -> u128 {
        ((from & self.moves_by(colours)) << 1) | self.resting(colours, from)
    }

    /// The states before a cell that has one of some colours.
    pub(crate) fn backward(&self, colours: u16, to: u128) -> u128 {
        ((to >> 1) & self.moves_by(colours)) | self.resting(colours, to)
    }
}
