//! The checker of certificates of all forms, without any search: whether a certificate proves that a picture is the only solution.
#![tactic(auto)]

mod board;
mod bounded_trail;
mod checker;
mod checking;
mod claim;
mod forcing;
mod givens;
mod machine;
mod moving;
mod needs;
mod note;
mod opening;
mod places;
mod publishing;
mod span;
mod stage;
mod store;
mod stray;

pub use checker::Checker;
pub use checking::check_cert;
pub use givens::set_givens;
pub use publishing::check_published;
