//! A complete search for a picture with given clues, or for another one.
#![tactic(auto)]

mod bounds;
mod carrying;
mod coming;
mod counting;
mod finding;
mod first;
mod keeper;
mod ladder;
pub mod laws;
mod learning;
mod looking;
mod near;
mod part_decision;
mod part_search;
mod parts;
mod scene;
mod tree;
mod tree_closing;
mod tree_lines;
mod tree_step;

pub use bounds::{BOUNDS, Bounds, TURNS, Turns};
pub use counting::{Ending, Searched};
pub use finding::{find_first, find_first_within, find_other};
pub use keeper::{Answer, Judged, Keeper, KeptPart};
pub use ladder::{Decided, Ladder, climb, take_turn};
pub use near::find_near_other;
pub use part_decision::decide_within;
pub use parts::Parts;
pub use scene::Scene;
pub use tree_lines::Lines;
