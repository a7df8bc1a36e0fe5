//! The lines of a session, as they come from a reader, and the commands that they name.
#![tactic(auto)]

mod command;
mod draft;
mod fault;
mod fields;
mod lines;
mod numbers;
mod parse;
mod request;
mod session_fault;
mod words;

pub use command::{ASSESS_SPLITS, Command};
pub use fault::CommandFault;
pub use fields::allowance_in;
pub use lines::{Lines, ReadFault};
pub use numbers::sample_in;
pub use request::{MOST_BYTES, Request, parse_command};
pub use session_fault::SessionFault;
