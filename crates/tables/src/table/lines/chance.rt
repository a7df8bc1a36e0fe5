//! A comparison of both engines on random lines.

use super::narrowing::Engines;
use anyhow::{Result, ensure};
use clues::{Clue, clue_of};
use line_facts::Outcome;
use picture::{Axis, LineId, Picture};
use std::alloc::Global;
use table_words::ALL;

// The next number of a small generator.
fn draw(state: &mut u64) -> u64 {
    *state = state
        .wrapping_mul(6_364_136_223_846_793_005)
        .wrapping_add(1_442_695_040_888_963_407);
    *state >> 33
}

// The clue of a line of these cells.
fn clue_from(alloc: Global, cells: &[u8]) -> Result<Clue> {
    ensure!(0 < cells.len() && cells.len() <= 120, "1 to 120 cells");
    let mut picture = Picture::blank(alloc, 1, cells.len() as u8)?;
    for (i, cell) in cells.iter().enumerate() {
        paint(&mut picture, i, *cell)?;
    }
    ensure!(picture.height() > 0, "a picture has a row");
    let axis = Axis::Across;
    Ok(clue_of(alloc, picture.line(LineId { axis, at: 0 }))?)
}

fn paint(picture: &mut Picture, cell: usize, colour: u8) -> Result<()> {
    ensure!(0 < picture.height() && colour < 16, "no such row or colour");
    ensure!(cell < usize::from(picture.width()), "no such cell");
    picture.set(0, cell as u8, colour);
    Ok(())
}

/// The colours left in a cell that has this colour: of four cells `open` keep every colour, and some of the others keep a
/// few more than their own. Without `open` each keeps only its own. One cell in 400 may lose its own.
pub fn draw_left(state: &mut u64, open: Option<u64>, colour: u8) -> u16 {
    let own = 1u16 << (colour % 16);
    if draw(state) % 400 == 0 {
        return (draw(state) % 16) as u16;
    }
    let Some(open) = open else {
        return own;
    };
    if draw(state) % 4 < open {
        return ALL;
    }
    if draw(state) % 2 == 0 {
        own
    } else {
        own | (draw(state) % 16) as u16
    }
}

/// A random line in up to four colours, and what is left of its cells.
#[derive(Clone, Copy)]
pub struct RandomLine {
    pub len: usize,
    pub cells: [u8; 120],
    pub left: [u16; 120],
}

/// Draws a line of up to `most` cells.
pub fn draw_line(state: &mut u64, most: u64) -> RandomLine {
    let len = (1 + draw(state) % most.clamp(1, 120)) as usize;
    let colours = 2 + draw(state) % 3;
    let run = 1 + draw(state) % 6;
    let open = match draw(state) % 6 {
        5 => None,
        open => Some(open),
    };
    let mut line = RandomLine {
        len,
        cells: [0; 120],
        left: [0; 120],
    };
    let mut colour = 0;
    for i in 0..len {
        if draw(state) % run == 0 {
            colour = (draw(state) % colours) as u8;
        }
        line.cells[i] = colour;
        line.left[i] = draw_left(state, open, colour);
    }
    line
}

/// Compares both engines on `count` lines of up to 120 cells.
pub fn compare_all(alloc: Global, count: u32, seed: u32) -> Result<String> {
    let mut engines = Engines::make(alloc, 120)?;
    let mut state = u64::from(seed);
    let mut agree = 0u32;
    let mut dead = 0u32;
    for _ in 0..count {
        let outcome = compare(alloc, &mut engines, &mut state)?;
        agree = agree.saturating_add(1);
        if outcome == Outcome::Dead {
            dead = dead.saturating_add(1);
        }
    }
    let some = if dead > 0 { "some" } else { "none" };
    let most = if dead < count { "not all" } else { "all" };
    Ok(format!(in alloc; "{agree} lines agree, {some} of them dead, {most}")?)
}

// Compares both engines on a random line.
fn compare(alloc: Global, engines: &mut Engines, state: &mut u64) -> Result<Outcome> {
    let line = draw_line(state, 120);
    ensure!(line.len <= 120, "a line has at most 120 cells");
    let clue = clue_from(alloc, &line.cells[..line.len])?;
    let (plain, mask) = engines.narrow(&clue, &line.left[..line.len])?;
    ensure!(plain == mask, "a line where they differ");
    Ok(plain.outcome)
}
