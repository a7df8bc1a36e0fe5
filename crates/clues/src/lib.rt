//! Clues: the blocks of a line, and the clue book of a picture.
#![tactic(auto)]

mod block;
mod change;
mod clue;
mod clue_book;
mod counting;
pub mod laws;
mod matching;
mod places;

pub use block::Block;
pub use change::Change;
pub use clue::Clue;
pub use clue_book::ClueBook;
pub use counting::clue_of;
pub use matching::without_run;
pub use places::Places;
