//! The book of steps: a reason for each exclusion that line logic draws.
#![tactic(auto)]

mod book;
mod fault;
pub mod laws;
mod making;
mod masks;
mod needs;
mod premise;
mod reason;
mod standing;
mod step;

pub use book::Book;
pub use fault::StepFault;
pub use premise::{Premise, Premises};
pub use reason::Reason;
pub use step::Step;
