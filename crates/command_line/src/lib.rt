//! The command line: what its arguments ask the program for.
#![tactic(auto)]

mod assessing;
mod command;
pub mod laws;
mod words;

pub use words::{Task, read_words};
