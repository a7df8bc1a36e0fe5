//! A comparison of both engines with brute force, on short lines in two colours.

use super::narrowing::{Engines, Narrowed};
use anyhow::{Result, ensure};
use clues::{Block, Clue};
use line_facts::Outcome;
use std::alloc::Global;
use table_words::clue_in;

/// The most cells of a line that is tried by brute force.
pub const MOST: u32 = 4;

/// Compares on all lines of up to `most` cells, all clues whose blocks have up to `most` + 1 cells in all, and every choice of
/// `.`, `a` and `b` left in each cell.
pub fn compare_all(alloc: Global, most: u32) -> Result<String> {
    ensure!(most <= MOST, "listed lines are short");
    let mut engines = Engines::make(alloc, 120)?;
    let mut clues = 0u32;
    let mut lines = 0u32;
    for cells in 0..most + 2 {
        for code in 0..power(3, cells) {
            let Some(clue) = clue_by_number(alloc, code, cells)? else {
                continue;
            };
            clues = clues.saturating_add(1);
            for len in 0..most + 1 {
                let some = compare_lines(alloc, &mut engines, &clue, len)?;
                lines = lines.saturating_add(some);
            }
        }
    }
    Ok(format!(in alloc; "{clues} clues, {lines} lines agree")?)
}

/// A power of a small number.
pub fn power(base: u32, exponent: u32) -> u32 {
    let mut value = 1u32;
    for _ in 0..exponent {
        value = value.saturating_mul(base);
    }
    value
}

/// The clue that a number in base 3 names, whose blocks have `cells` cells in all. Digits are read from the lowest on. A digit 0
/// lengthens the next block by a cell; 1 and 2 end a block, which is `a` or `b`. None where the last digit read is 0.
pub fn clue_by_number(alloc: Global, code: u32, cells: u32) -> Result<Option<Clue>> {
    let mut word = String::new(alloc);
    let mut rest = code;
    let mut len = 1u32;
    for _ in 0..cells {
        match rest % 3 {
            0 => len = len.saturating_add(1),
            digit => {
                if !word.is_empty() {
                    word.push(',')?;
                }
                let letter = if digit == 1 { 'a' } else { 'b' };
                write!(word, "{len}{letter}")?;
                len = 1;
            }
        }
        rest /= 3;
    }
    if len > 1 {
        return Ok(None);
    }
    if word.is_empty() {
        word.push('0')?;
    }
    Ok(Some(clue_in(alloc, word.as_str())?))
}

// Compares all masks of a length with a clue, and returns how many there are.
fn compare_lines(alloc: Global, engines: &mut Engines, clue: &Clue, len: u32) -> Result<u32> {
    let lines = lines_with(alloc, clue, len)?;
    let mut count = 0u32;
    for code in 0..power(8, len) {
        let left = left_by_number(code);
        let listed = listed(&lines, &left, len);
        ensure!(len <= MOST, "listed lines are short");
        let (plain, mask) = engines.narrow(clue, &left[..len as usize])?;
        ensure!(
            plain == listed && mask == listed,
            "a line where they differ"
        );
        count = count.saturating_add(1);
    }
    Ok(count)
}

/// The masks of four cells, with any of three colours left, by a number in base 8.
pub fn left_by_number(code: u32) -> [u16; 4] {
    let mut left = [0; 4];
    let mut rest = code;
    for mask in left.iter_mut() {
        *mask = (rest % 8) as u16;
        rest /= 8;
    }
    left
}

// All lines of a length that have a clue, each cell as the mask of its colour.
fn lines_with(alloc: Global, clue: &Clue, len: u32) -> Result<Vec<[u16; 4]>> {
    let mut lines = Vec::new(alloc);
    for code in 0..power(3, len) {
        let cells = cells_by_number(code);
        ensure!(len <= MOST, "listed lines are short");
        if has_blocks(&cells[..len as usize], clue.blocks()) {
            lines.push(cells.map(|cell| 1u16 << (cell % 3)))?;
        }
    }
    Ok(lines)
}

// Cells of background, `a` and `b`, by a number in base 3.
fn cells_by_number(code: u32) -> [u8; 4] {
    let mut cells = [0; 4];
    let mut rest = code;
    for cell in cells.iter_mut() {
        *cell = (rest % 3) as u8;
        rest /= 3;
    }
    cells
}

// Whether a line has these blocks, one after the other.
fn has_blocks(cells: &[u8], blocks: &[Block]) -> bool {
    let mut ended = 0usize;
    let mut run = Block { len: 0, colour: 0 };
    for cell in cells {
        if *cell == run.colour {
            run.len = run.len.saturating_add(1);
            continue;
        }
        if run.colour != 0 {
            if blocks.get(ended) != Some(&run) {
                return false;
            }
            ended = ended.saturating_add(1);
        }
        run = Block {
            len: 1,
            colour: *cell,
        };
    }
    if run.colour != 0 {
        if blocks.get(ended) != Some(&run) {
            return false;
        }
        ended = ended.saturating_add(1);
    }
    ended == blocks.len()
}

// The colours that the listed lines leave, of those lines whose first `len` cells all have a colour in `left`.
fn listed(lines: &[[u16; 4]], left: &[u16; 4], len: u32) -> Narrowed {
    let mut listed = Narrowed {
        outcome: Outcome::Dead,
        left: [0; 120],
    };
    for line in lines {
        let mut cells = line.iter().zip(left).take(len as usize);
        if cells.all(|(cell, mask)| *cell & *mask != 0) {
            listed.outcome = Outcome::Narrowed;
            for (i, cell) in line.iter().take(len as usize).enumerate() {
                listed.left[i] |= *cell;
            }
        }
    }
    listed
}
