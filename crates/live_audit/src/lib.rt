//! A bench: one picture with its history, its clues, its book and its verdicts, up to date after every stroke.
#![tactic(auto)]

mod assessing;
mod audit;
mod bench;
mod certifying;
mod judging;
pub mod laws;
mod verdict;
mod why;
mod work;

pub use bench::{Bench, MAX_ALLOWANCE};
pub use certifying::Finding;
pub use verdict::Verdict;
pub use why::Why;
pub use work::Work;
