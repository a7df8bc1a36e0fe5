//! Which cell a search splits. It is proved only that the chosen cell can be split, so any heuristic will do.
#![tactic(auto)]

mod choosing;
mod filling;
mod looking;
mod puzzle;
mod regions;
mod telling;

pub use choosing::{Chosen, choose};
pub use filling::{filled, fills_all, leaves};
pub use puzzle::{Choice, Node, Puzzle};
pub use trail::Cell;
