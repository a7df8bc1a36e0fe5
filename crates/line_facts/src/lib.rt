//! Facts, which are the candidates of each cell; the trait of line engines; and what one line forces.
#![tactic(auto)]

mod along;
mod apart;
mod base;
mod facts;
mod forcing;
pub mod laws;
mod line_engine;
mod meter;

pub use facts::{Facts, only_colour};
pub use forcing::{Forced, force, force_crossing};
pub use line_engine::{LineEngine, Outcome};
pub use meter::{Meter, NOTHING_DONE};
