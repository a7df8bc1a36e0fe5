//! Two-colour puzzles as .non texts.
#![tactic(auto)]

mod clue_line;
mod counting;
mod fault;
mod goal;
mod laws;
mod lines;
mod non_puzzle;
mod reading;
mod section;
mod seen;
mod text;
mod writing;

pub use fault::{NonFault, NonWriteFault};
pub use laws::{puzzles_are_in_two_colours, round_trip, round_trip_of};
pub use non_puzzle::NonPuzzle;
pub use reading::read_non;
pub use writing::write_non;
