//! What the program answers about a file: its clues, a certificate, the check of a certificate, an assessment, and a bench
//! that opens it.
#![tactic(auto)]

mod assessing;
mod check;
mod open;
mod prove;
mod run;

pub use assessing::{Block, run_assess};
pub use check::run_check;
pub use open::start_bench;
pub use program_options::{
    AssessOptions, Options, ProgramFault, ProveOptions, VERSION, background_in,
};
pub use prove::run_prove;
pub use run::run_clues;
