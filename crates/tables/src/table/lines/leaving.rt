//! A comparison of `leave_out` with a plain trial of each cell in turn.

use super::drawing::draw_and_leave_out;
use super::listing::{MOST, clue_by_number, left_by_number, power};
use super::narrowing::narrow_by;
use anyhow::{Result, ensure};
use clues::Clue;
use line_facts::LineEngine;
use line_settle::PlainEngine;
use std::alloc::Global;
use table_words::ALL;

/// Compares on all lines of 1 to `most` cells, all clues whose blocks have fewer than `most` cells in all, and every choice of
/// `.`, `a` and `b` left in each cell.
pub fn compare_all(alloc: Global, most: u32) -> Result<String> {
    ensure!(0 < most && most <= MOST, "listed lines are short");
    let mut engine = PlainEngine::make(alloc, 120)?;
    let mut tally = Tally { lines: 0, kept: 0 };
    for cells in 0..most {
        for code in 0..power(3, cells) {
            if let Some(clue) = clue_by_number(alloc, code, cells)? {
                compare_lines(&mut engine, &clue, most, &mut tally)?;
            }
        }
    }
    tally.text(alloc)
}

/// On how many lines both agreed, and how many masks were kept on them.
#[derive(Drop)]
struct Tally {
    lines: u32,
    kept: usize,
}

impl Tally {
    fn text(&self, alloc: Global) -> Result<String> {
        let lines = self.lines;
        let some = if self.kept > 100 { "many" } else { "few" };
        Ok(format!(in alloc; "{lines} lines agree, {some} masks kept")?)
    }

    fn add(&mut self, kept: usize) {
        self.lines = self.lines.saturating_add(1);
        self.kept = self.kept.saturating_add(kept);
    }
}

// Compares all lines of 1 to `most` cells with a clue.
fn compare_lines<E: LineEngine>(
    engine: &mut E,
    clue: &Clue,
    most: u32,
    tally: &mut Tally,
) -> Result<()> {
    for len in 1..most.saturating_add(1) {
        ensure!(len <= MOST, "listed lines are short");
        for code in 0..power(8, len) {
            let left = left_by_number(code);
            let left = &left[..len as usize];
            tally.add(compare(engine, clue, left, &[ALL; 4][..len as usize])?);
        }
    }
    Ok(())
}

// Compares both on a line, and returns how many cells kept a mask.
fn compare<E: LineEngine>(
    engine: &mut E,
    clue: &Clue,
    left: &[u16],
    among: &[u16],
) -> Result<usize> {
    let len = left.len();
    ensure!(len <= 120, "a line has at most 120 cells");
    let (drawn, kept) = draw_and_leave_out(engine, clue, left, among)?;
    let mut tried = [0; 120];
    tried[..len].copy_from_slice(left);
    leave_out_by_trial(engine, clue, &drawn, &mut tried[..len])?;
    ensure!(kept == tried, "a line where they differ");
    Ok(kept[..len].iter().filter(|mask| **mask != ALL).count())
}

// Gives each cell in turn all its colours back, and puts its old mask back where a drawn colour is possible then.
fn leave_out_by_trial<E: LineEngine>(
    engine: &mut E,
    clue: &Clue,
    drawn: &[u16],
    left: &mut [u16],
) -> Result<()> {
    for i in 0..left.len() {
        let old = left[i];
        left[i] = ALL;
        let narrowed = narrow_by(engine, clue, left)?;
        let mut cells = narrowed.left.iter().zip(drawn);
        if cells.any(|(mask, colours)| *mask & *colours != 0) {
            left[i] = old;
        }
    }
    Ok(())
}
