//! A designer's edits, why they are refused, and the history of a document.
#![tactic(auto)]

mod cells;
mod change;
mod edit;
mod entry;
mod facts;
mod fault;
mod idle;
mod kept;
pub mod laws;
mod moving;
mod painting;
mod parts;
mod places;
mod prepared;
mod refusal;
mod studio;

pub use edit::Edit;
pub use entry::Entry;
pub use facts::know;
pub use fault::EditFault;
pub use prepared::Prepared;
pub use studio::{MAX_DEPTH, Studio};
