//! The mask engine: line solving on sets of positions, a set being the bits of one number.

ghost use Rattle.std.specs.Prelude.{◌≡◌, ◌+◌, ◌≤◌, IfOk, vec_len};
ghost use Rattle.line_settle.specs.Engine.{Engine, MaskRoom, engine};

use crate::mask_line::narrow_by_sets;
use clues::Clue;
use line_facts::{LineEngine, Outcome};
use picture::MAX_SIDE;
use std::alloc::{AllocError, Global};
use std::marker::Model;

/// A line engine that keeps, for each block of the clue, the sets of positions from which the line can go to its end, by
/// laying the block and by waiting for it, as the bits of numbers. There is a position before each cell and one after
/// the last, so a line of at most 63 cells has its sets in 64 bits, and a longer one, of at most 120 cells, in 128.
#[derive(Drop)]
pub struct MaskEngine {
    longest: u8,
    calls: u64,
    starting: Vec<u64>,
    waiting: Vec<u64>,
    far_starting: Vec<u128>,
    far_waiting: Vec<u128>,
}

// A line of fewer cells fits in 64 bits.
const NEAR: usize = 64;

impl Model for MaskEngine {
    ghost Value = { Engine };

    ghost view = { λ e. engine e.longest e.calls };

    ghost invariant = { λ e. MaskRoom e.longest e.starting.items e.waiting.items
        e.far_starting.items e.far_waiting.items };
}

impl MaskEngine {
    /// An engine for lines of up to `longest` cells, with all the memory that it will use.
    pub fn make(alloc: Global, longest: u8) -> Result<MaskEngine, AllocError>
        requires { longest ≤ MAX_SIDE }
        ensures { IfOk result (λ made. made ≡ engine longest 0) }
    {
        let side = usize::from(longest) + 1;
        Ok(MaskEngine {
            longest,
            calls: 0,
            starting: vec![in alloc; 0; side]?,
            waiting: vec![in alloc; 0; side]?,
            far_starting: vec![in alloc; 0; side]?,
            far_waiting: vec![in alloc; 0; side]?,
        })
    }
}

impl LineEngine for MaskEngine {
    ghost longest = { λ e. e.longest };

    ghost calls = { λ e. e.calls };

    fn longest(&self) -> u8 {
        self.longest
    }

    fn calls(&self) -> u64 {
        self.calls
    }

    fn narrow(&mut self, count: &mut u64, clue: &Clue, left: &[u16], out: &mut [u16]) -> Outcome {
        self.calls = self.calls.saturating_add(1);
        *count = count.saturating_add(1);
        if left.len() < NEAR {
            let starting = &mut self.starting;
            narrow_by_sets(clue.blocks(), left, out, starting, &mut self.waiting)
        } else {
            let starting = &mut self.far_starting;
            narrow_by_sets(clue.blocks(), left, out, starting, &mut self.far_waiting)
        }
    }
}
