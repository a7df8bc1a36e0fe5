//! What the tests begin with, made again where an allocation was refused.

use super::{Memory, first_of};
use clues::ClueBook;
use justify::Book;
use line_facts::Facts;
use line_settle::MaskEngine;
use picture::{Document, MAX_SIDE, Picture};
use ppm_text::{PpmFault, read_ppm};
use std::alloc::{AllocError, Global};
use std::process::Abort;

/// Two by two cells: black and white, white and red.
pub const SQUARE: &[u8] = b"P3\n2 2\n255\n0 0 0 255 255 255\n255 255 255 255 0 0\n";

/// Two by two cells: black and white, white and black.
pub const PAIR: &[u8] = b"P3 2 2 255 0 0 0 255 255 255 255 255 255 0 0 0\n";

/// A black diagonal above a red one, in four by four cells.
pub const DIAGONALS: &[u8] =
    b"P3 4 4 1 0 0 0 1 1 1 1 1 1 1 1 1 1 1 1 0 0 0 1 1 1 1 1 1 1 1 1 1 1 1 1 0 0 1 1 1 1 1 1 1 1 1 1 1 1 1 0 0\n";

/// How many cells the row has: enough for a step to allocate memory for what it draws.
pub const CELLS: u8 = 20;

pub fn document_of(rt: &impl Abort, alloc: Global, memory: Memory, file: &[u8]) -> Document {
    let first = read_ppm(alloc, file, None);
    first_of(
        rt,
        memory,
        PpmFault::Memory,
        first,
        read_ppm(alloc, file, None),
    )
}

/// An engine for all lines.
pub fn engine_of(rt: &impl Abort, alloc: Global, memory: Memory) -> MaskEngine {
    let first = MaskEngine::make(alloc, MAX_SIDE);
    first_of(
        rt,
        memory,
        AllocError,
        first,
        MaskEngine::make(alloc, MAX_SIDE),
    )
}

// The clues of a row whose last cell alone has colour 1.
fn row_clues(rt: &impl Abort, alloc: Global) -> Result<ClueBook, AllocError> {
    let mut picture = Picture::blank(alloc, 1, CELLS)?;
    assert!(rt; picture.height() > 0 && picture.width() == CELLS);
    picture.set(0, CELLS - 1, 1);
    ClueBook::of(alloc, &picture)
}

pub fn clues_of_row(rt: &impl Abort, alloc: Global, memory: Memory) -> ClueBook {
    let first = row_clues(rt, alloc);
    first_of(rt, memory, AllocError, first, row_clues(rt, alloc))
}

/// Exclusions that leave colour 1 only in the last cell of the row.
pub fn row_base(rt: &impl Abort, alloc: Global) -> Result<Facts, AllocError> {
    let mut facts = Facts::none(alloc, 1, CELLS)?;
    for at in 0..CELLS - 1 {
        assert!(rt; facts.height() > 0 && at < facts.width());
        facts.exclude(0, at, 2);
    }
    Ok(facts)
}

fn row_book(rt: &impl Abort, alloc: Global) -> Result<Book, AllocError> {
    Book::start(alloc, row_base(rt, alloc)?)
}

/// A book without a step over the exclusions of `row_base`.
pub fn book_of_row(rt: &impl Abort, alloc: Global, memory: Memory) -> Book {
    let first = row_book(rt, alloc);
    first_of(rt, memory, AllocError, first, row_book(rt, alloc))
}
