//! Clues as blocks.

ghost use Rattle.std.specs.Prelude.{◌<◌};
ghost use Rattle.clues.specs.Clue.{IsBlock, IsClue};

use crate::colours::{cell_in, letter_of};
use crate::masks::repeated;
use anyhow::{Context, Result, ensure};
use clues::{Block, Clue, ClueBook};
use picture::{Axis, LineId};
use std::alloc::{AllocError, Global};

/// The clue of blocks joined by `,`, or of `0` for none.
pub fn clue_in(alloc: Global, word: &str) -> Result<Clue> {
    let mut blocks = Vec::new(alloc);
    if word != "0" {
        for part in word.split(',') {
            let (count, block) = repeated(part)?;
            let block = block_in(block)?;
            for _ in 0..count {
                blocks.push(block)?;
            }
        }
    }
    let are_blocks = blocks.iter().all(|block| 0 < block.len
        && 0 < block.colour
        && block.colour < 16);
    ensure!(are_blocks, "blocks of a clue");
    Ok(Clue::from_blocks(alloc, &blocks)?)
}

// The block of a length and a letter.
fn block_in(word: &str) -> Result<Block> {
    let (letter, number) = word.as_bytes().split_last().context("a block")?;
    let cell = cell_in(*letter)?;
    let len = length_in(number)?;
    Ok(Block {
        len,
        colour: cell.colour,
    })
}

// The length that digits write.
fn length_in(digits: &[u8]) -> Result<u8> {
    let mut len = 0u16;
    for digit in digits {
        ensure!(b'0' <= *digit && *digit <= b'9', "a length");
        let value = u16::from(*digit - b'0');
        len = len.saturating_mul(10).saturating_add(value);
    }
    ensure!(len < 256, "a length");
    Ok(len as u8)
}

/// Appends a clue to a text.
pub fn push_clue(text: &mut String, clue: &Clue) -> Result<(), AllocError> {
    if clue.blocks().is_empty() {
        text.push('0')?;
    }
    for (i, block) in clue.blocks().iter().enumerate() {
        if i > 0 {
            text.push(',')?;
        }
        let len = block.len;
        let letter = letter_of(block.colour);
        write!(text, "{len}{letter}")?;
    }
    Ok(())
}

/// Appends the clues of the rows to a text, and then those of the columns.
pub fn push_clues(text: &mut String, clues: &ClueBook) -> Result<(), AllocError> {
    text.push_str("rows")?;
    for at in 0..clues.height() {
        text.push(' ')?;
        push_row_clue(text, clues, at)?;
    }
    text.push_str(" columns")?;
    for at in 0..clues.width() {
        text.push(' ')?;
        push_column_clue(text, clues, at)?;
    }
    Ok(())
}

// Appends the clue of a row to a text.
fn push_row_clue(text: &mut String, clues: &ClueBook, at: u8) -> Result<(), AllocError> {
    if at < clues.height() {
        let axis = Axis::Across;
        push_clue(text, clues.clue(LineId { axis, at }))?;
    }
    Ok(())
}

// Appends the clue of a column to a text.
fn push_column_clue(text: &mut String, clues: &ClueBook, at: u8) -> Result<(), AllocError> {
    if at < clues.width() {
        let axis = Axis::Down;
        push_clue(text, clues.clue(LineId { axis, at }))?;
    }
    Ok(())
}
