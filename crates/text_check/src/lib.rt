//! The check of a certificate by the texts of its files: what is said of it, or the first error. Also the reader of the file of a
//! published puzzle's givens.
#![tactic(auto)]

mod check;
mod fault;
mod givens;
mod givens_fault;

pub use check::{Accepted, check_texts};
pub use fault::CheckFault;
pub use givens::published_cells;
pub use givens_fault::GivensFault;
