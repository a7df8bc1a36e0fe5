//! Line solving: which colours each cell of a line can still have, by its clue.
#![tactic(auto)]

mod block_steps;
mod direction;
pub mod laws;
mod line;
mod mask_engine;
mod mask_line;
mod pattern;
mod plain_engine;
mod position_tables;
mod positions;
mod shown_line;
mod state_sets;
mod sweep;
mod tables;
mod word;

pub use line_facts::{
    Facts, Forced, LineEngine, Meter, NOTHING_DONE, Outcome, force, force_crossing,
};
pub use mask_engine::MaskEngine;
pub use plain_engine::PlainEngine;
pub use sweep::leave_out;
