//! Keeps the steps of a book that stand after a change, and names the lines that may exclude more.
#![tactic(auto)]

mod dirty;
mod keeping;
mod same_clues;
mod sizes;
mod standing;

pub use keeping::{Kept, keep};
