//! One evaluation of a line by each of the two engines.

ghost use Rattle.std.specs.Prelude.{◌≤◌, length};

use anyhow::{Result, ensure};
use clues::Clue;
use line_facts::{LineEngine, Outcome};
use line_settle::{MaskEngine, PlainEngine};
use std::alloc::Global;

/// The outcome of an evaluation, and what is left of up to 120 cells.
#[derive(Clone, Copy, PartialEq, Eq)]
pub struct Narrowed {
    pub outcome: Outcome,
    pub left: [u16; 120],
}

/// Both engines.
#[derive(Drop)]
pub struct Engines {
    pub plain: PlainEngine,
    pub mask: MaskEngine,
}

impl Engines {
    /// Engines for lines of up to `cells` cells.
    pub fn make(alloc: Global, cells: u8) -> Result<Engines> {
        ensure!(cells <= 120, "a line has at most 120 cells");
        Ok(Engines {
            plain: PlainEngine::make(alloc, cells)?,
            mask: MaskEngine::make(alloc, cells)?,
        })
    }

    /// What each leaves of a line.
    pub fn narrow(&mut self, clue: &Clue, left: &[u16]) -> Result<(Narrowed, Narrowed)> {
        Ok((
            narrow_by(&mut self.plain, clue, left)?,
            narrow_by(&mut self.mask, clue, left)?,
        ))
    }
}

/// What an engine leaves of a line.
pub fn narrow_by<E: LineEngine>(engine: &mut E, clue: &Clue, left: &[u16]) -> Result<Narrowed> {
    ensure!(left.len() <= 120, "a line has at most 120 cells");
    ensure!(
        left.len() <= usize::from(engine.longest()),
        "too many cells"
    );
    let mut out = [0; 120];
    let outcome = engine.narrow(&mut 0, clue, left, &mut out[..left.len()]);
    Ok(Narrowed { outcome, left: out })
}
