//! A session at the command line: commands in, text out.
#![tactic(auto)]

mod answer;
pub mod laws;
mod refusal;
mod session;

pub use command_text::{Command, CommandFault, MOST_BYTES, Request, SessionFault, parse_command};
pub use report_text::clues_text;
pub use session::run_session;
