//! Puzzles, as words of a table.
//!
//! A puzzle is a picture with its givens; or clues alone, those of the rows joined by `/`, and after `|` those of the
//! columns.

use anyhow::{Result, ensure};
use clues::{Clue, ClueBook};
use line_facts::Facts;
use std::alloc::Global;
use table_words::{clue_in, document_in};

/// The clues of a puzzle, and what its givens exclude.
#[derive(Drop)]
pub struct Puzzle {
    pub clues: ClueBook,
    pub base: Facts,
}

/// Reads a puzzle from a word.
pub fn puzzle_in(alloc: Global, word: &str) -> Result<Puzzle> {
    let Some((rows, columns)) = word.split_once('|') else {
        let document = document_in(alloc, word)?;
        return Ok(Puzzle {
            clues: ClueBook::of(alloc, &document.picture)?,
            base: Facts::base(alloc, &document)?,
        });
    };
    let rows = clues_in(alloc, rows)?;
    let columns = clues_in(alloc, columns)?;
    ensure!(0 < rows.len() && rows.len() <= 120, "1 to 120 rows");
    ensure!(
        0 < columns.len() && columns.len() <= 120,
        "1 to 120 columns"
    );
    let base = Facts::none(alloc, rows.len() as u8, columns.len() as u8)?;
    let clues = ClueBook::from_parts(rows, columns);
    Ok(Puzzle { clues, base })
}

// Clues joined by `/`.
fn clues_in(alloc: Global, word: &str) -> Result<Vec<Clue>> {
    let mut clues = Vec::new(alloc);
    for clue in word.split('/') {
        clues.push(clue_in(alloc, clue)?)?;
    }
    Ok(clues)
}
