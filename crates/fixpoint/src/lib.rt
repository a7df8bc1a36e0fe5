//! Propagation of facts to the fixpoint of all lines: the least closed facts that include a base. Lines that wait to be
//! evaluated stand in worklists, each with an order of its own.
#![tactic(auto)]

mod agenda;
mod closing;
mod fault;
mod in_order;
pub mod laws;
mod line_names;
mod newest_first;
mod settling;

pub use agenda::Agenda;
pub use closing::{Closed, close_facts, close_naming};
pub use fault::CloseFault;
pub use in_order::InOrder;
pub use line_names::all_lines;
pub use newest_first::NewestFirst;
pub use settling::settle_afresh;
