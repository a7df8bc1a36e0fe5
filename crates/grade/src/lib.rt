//! The grade of a puzzle: line logic look by look, its figures, its path, and the word for them.
#![tactic(auto)]

mod figures;
mod grading;
pub mod laws;
mod look;
mod needs;
mod pathing;
mod seen;
mod start;
mod turn;
mod walk;
mod word;

pub use figures::Figures;
pub use grading::grade_lines;
pub use look::{Advance, Fall};
pub use pathing::{Path, make_path};
pub use start::start_facts;
pub use word::{Grade, Word};
