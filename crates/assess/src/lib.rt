//! Whether a puzzle is fit to be published: its verdict, its grade and its flaws.
#![tactic(auto)]

mod assessing;
mod assessment;
mod following;
mod grading;
mod guesses;
mod guessing;
mod judging;
mod looking;
mod nesting;
mod spare;

pub use assessing::{assess, assess_by};
pub use assessment::{Assessment, Verdict};
pub use grading::{GRADE_EVALUATIONS, GRADE_LINES};
pub use guesses::Guesses;
pub use guessing::guesses_of;
