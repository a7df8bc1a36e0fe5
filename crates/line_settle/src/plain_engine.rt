//! The plain engine: line solving with tables of truth values, to compare the mask engine with.

ghost use Rattle.std.specs.Prelude.{◌≡◌, ◌+◌, ◌*◌, IfOk, vec_len};
ghost use Rattle.line_settle.specs.Engine.{Engine, EngineRoom, engine};

use crate::line::narrow_line;
use clues::Clue;
use line_facts::{LineEngine, Outcome};
use std::alloc::{AllocError, Global};
use std::marker::Model;

/// A line engine that uses tables of truth values: which states of the clue's pattern the cells before a place can
/// reach, and from which states the cells after it can go to the end.
#[derive(Drop)]
pub struct PlainEngine {
    longest: u8,
    calls: u64,
    pattern: Vec<u8>,
    row: Vec<bool>,
    table: Vec<bool>,
}

impl Model for PlainEngine {
    ghost Value = { Engine };

    ghost view = { λ e. engine e.longest e.calls };

    ghost invariant = { λ e. EngineRoom e.longest e.pattern.items e.row.items e.table.items };
}

impl PlainEngine {
    /// An engine for lines of up to `longest` cells, with all the memory that it will use.
    pub fn make(alloc: Global, longest: u8) -> Result<PlainEngine, AllocError>
        ensures { IfOk result (λ made. made ≡ engine longest 0) }
    {
        let side = usize::from(longest) + 1;
        Ok(PlainEngine {
            longest,
            calls: 0,
            pattern: vec![in alloc; 0; side]?,
            row: vec![in alloc; false; side]?,
            table: vec![in alloc; false; side * side]?,
        })
    }
}

impl LineEngine for PlainEngine {
    ghost longest = { λ e. e.longest };

    ghost calls = { λ e. e.calls };

    fn longest(&self) -> u8 {
        self.longest
    }

    fn calls(&self) -> u64 {
        self.calls
    }

    fn narrow(&mut self, count: &mut u64, clue: &Clue, left: &[u16], out: &mut [u16]) -> Outcome {
        self.calls = self.calls.saturating_add(1);
        *count = count.saturating_add(1);
        narrow_line(
            clue.blocks(),
            left,
            out,
            &mut self.pattern,
            &mut self.row,
            &mut self.table,
        )
    }
}
