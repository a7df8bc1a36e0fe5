//! The program over any files and streams: what it reads and writes, and how it ends, for its arguments.
#![tactic(auto)]

mod assessing;
mod ending;
mod files;
mod input;
mod running;
mod work;

pub use assessing::{Standing, assess_files};
pub use ending::{Ended, end_with};
pub use files::{Files, read_file};
pub use input::{MAX_INPUT, read_input};
pub use running::{answer, run};
pub use work::{carry_out, run_work};
