//! A search for another picture that learns lemmas: clauses over line logic, each with the steps that refute its denial.
#![tactic(auto)]

mod atom;
mod automaton;
mod board;
mod deciding;
mod explaining;
mod finding;
mod learning;
mod log;
mod marks;
mod order;
mod plan;
mod propagating;
mod restarts;
mod running;
mod search;
mod shortening;
mod showing;
mod store;
mod sweeping;
mod telling;
mod trace;
mod writing;

pub use finding::{Found, learn};
pub use running::Effort;
