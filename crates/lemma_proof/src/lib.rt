//! Makes certificates with lemmas, each of which the checker has accepted.
#![tactic(auto)]

mod making;
mod naming;
mod single;
mod turning;

pub use lemma_search::Effort;
pub use making::{EFFORT, Made, check_made, make_proof};
pub use naming::given_cells;
pub use single::with_single_steps;
