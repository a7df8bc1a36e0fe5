//! What is searched, and how the cells to split are chosen.

use clues::ClueBook;
use line_facts::Facts;
use picture::Picture;

/// The clues of a search, and the held picture: one with these clues, where one is known. Both are borrowed.
#[derive(Clone, Copy, Drop)]
pub struct Puzzle<'a> {
    pub clues: &'a ClueBook,
    pub held: Option<&'a Picture>,
}

/// A node of a search: its puzzle, its facts, and whether the held picture still fills them, so that its colours need not
/// be tried.
#[derive(Clone, Copy, Drop)]
pub struct Node<'a> {
    pub puzzle: Puzzle<'a>,
    pub facts: &'a Facts,
    pub own: bool,
}

/// How a cell is chosen, among those of the smallest part that the held picture's colours do not fill.
#[derive(Clone, Copy, Debug, PartialEq, Eq)]
pub enum Choice {
    /// The first open cell in row order.
    First,
    /// Of the most telling open cells, the one whose colours die or narrow the facts most when each is tried.
    Look,
}
