//! The input of a search for another picture: clues, givens, facts, and the picture itself.

use clues::ClueBook;
use line_facts::Facts;
use picture::{CellSet, Picture};

/// The input of a search for another picture: a picture with its clues and its givens, and facts that a search may start from. All
/// four are borrowed.
#[derive(Clone, Copy, Drop)]
pub struct Scene<'a> {
    pub clues: &'a ClueBook,
    pub givens: &'a CellSet,
    pub facts: &'a Facts,
    pub picture: &'a Picture,
}
