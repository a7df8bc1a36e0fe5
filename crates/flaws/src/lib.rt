//! Flaws of a puzzle that show without a search: a blank picture, a background that no cell has, and colours that look alike.
#![tactic(auto)]

mod alike;
mod cells;

pub use alike::{Alike, alike_pairs, look_alike};
pub use cells::{has_colour, is_painted};
