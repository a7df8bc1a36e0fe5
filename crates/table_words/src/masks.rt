//! Masks of colours left, of a cell, of a line and of a picture.

use crate::colours::{ALL, cell_in, letter_of};
use anyhow::{Context, Result, bail, ensure};
use line_facts::Facts;
use std::alloc::{AllocError, Global};

// A run of more equal masks than this is printed as one mask with a count.
const MANY: usize = 4;

/// How often a word is repeated, and the word: `3x.a` is three times `.a`.
pub fn repeated(part: &str) -> Result<(u8, &str)> {
    let Some((count, word)) = part.split_once('x') else {
        return Ok((1, part));
    };
    match count.parse() {
        Ok(count) => Ok((count, word)),
        Err(_) => bail!("a count"),
    }
}

/// The masks of a line, joined by `,`. A line without cells is `none`.
pub fn masks_in(alloc: Global, word: &str) -> Result<Vec<u16>> {
    let mut masks = Vec::new(alloc);
    if word != "none" {
        for part in word.split(',') {
            let (count, letters) = repeated(part)?;
            let mask = mask_in(letters)?;
            for _ in 0..count {
                masks.push(mask)?;
            }
        }
    }
    Ok(masks)
}

// The mask of letters.
fn mask_in(word: &str) -> Result<u16> {
    match word {
        "*" => return Ok(ALL),
        "-" => return Ok(0),
        _ => {}
    }
    ensure!(!word.is_empty(), "a mask has letters");
    let mut mask = 0;
    for letter in word.bytes() {
        let colour = cell_in(letter)?.colour;
        ensure!(colour < 16, "no such colour");
        mask |= 1u16 << colour;
    }
    Ok(mask)
}

/// The facts of rows of masks, joined by `/`.
pub fn facts_in(alloc: Global, word: &str) -> Result<Facts> {
    let height = word.split('/').count();
    let first = word.split('/').next().context("a row")?;
    let width = masks_in(alloc, first)?.len();
    ensure!(0 < height && height <= 120, "1 to 120 rows");
    ensure!(0 < width && width <= 120, "1 to 120 columns");
    let mut facts = Facts::none(alloc, height as u8, width as u8)?;
    for (row, masks) in word.split('/').enumerate() {
        let masks = masks_in(alloc, masks)?;
        ensure!(masks.len() == width, "rows of one length");
        leave_row(&mut facts, row, &masks)?;
    }
    Ok(facts)
}

// Gives the cells of a row these masks.
fn leave_row(facts: &mut Facts, row: usize, masks: &[u16]) -> Result<()> {
    for (col, mask) in masks.iter().enumerate() {
        ensure!(row < usize::from(facts.height()), "no such row");
        ensure!(col < usize::from(facts.width()), "no such column");
        facts.set_left(row as u8, col as u8, *mask);
    }
    Ok(())
}

/// Appends a mask to a text.
pub fn push_mask(text: &mut String, mask: u16) -> Result<(), AllocError> {
    if mask == ALL {
        return text.push('*');
    }
    if mask == 0 {
        return text.push('-');
    }
    for colour in 0..16u8 {
        if mask & (1 << colour) != 0 {
            text.push(letter_of(colour))?;
        }
    }
    Ok(())
}

/// Appends the masks of a line to a text. More than four equal ones are printed as one.
pub fn push_masks(text: &mut String, masks: &[u16]) -> Result<(), AllocError> {
    if masks.is_empty() {
        return text.push_str("none");
    }
    let mut told = 0;
    for (i, mask) in masks.iter().enumerate() {
        if i < told {
            continue;
        }
        let equal = masks.iter().skip(i).take_while(|other| **other == *mask);
        let count = equal.count();
        if i > 0 {
            text.push(',')?;
        }
        push_run(text, *mask, count)?;
        told = i.saturating_add(count);
    }
    Ok(())
}

// Appends a run of equal masks to a text.
fn push_run(text: &mut String, mask: u16, count: usize) -> Result<(), AllocError> {
    if count > MANY {
        write!(text, "{count}x")?;
        return push_mask(text, mask);
    }
    for i in 0..count {
        if i > 0 {
            text.push(',')?;
        }
        push_mask(text, mask)?;
    }
    Ok(())
}

/// Appends the rows of facts to a text.
pub fn push_facts(alloc: Global, text: &mut String, facts: &Facts) -> Result<(), AllocError> {
    for row in 0..facts.height() {
        if row > 0 {
            text.push('/')?;
        }
        let masks = row_masks(alloc, facts, row)?;
        push_masks(text, &masks)?;
    }
    Ok(())
}

// The masks of a row.
fn row_masks(alloc: Global, facts: &Facts, row: u8) -> Result<Vec<u16>, AllocError> {
    let mut masks = Vec::new(alloc);
    for col in 0..facts.width() {
        if row < facts.height() {
            masks.push(facts.left(row, col))?;
        }
    }
    Ok(masks)
}
