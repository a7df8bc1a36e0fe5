//! The trail with which searches and the checker backtrack, and the cells that they hold.
#![tactic(auto)]

mod cell;
mod note;
mod rows;
mod trail;

pub use cell::Cell;
pub use rows::has_row;
pub use trail::Trail;
