//! What the README claims, and laws of clues, of certificates and of what is published. Each function here is a caller that sees
//! only the clauses of the other crates.
#![tactic(auto)]

mod arguments;
mod check;
mod clue_laws;
mod laws;
mod lines;
mod list;
mod printed;
mod runs;
mod stroke;
mod tree_steps;
mod verdict;
mod work;

pub use arguments::{run_asked, run_assessed, run_checked, run_published, run_refused};
pub use check::{certificate_is_accepted, published_is_accepted};
pub use clue_laws::{clues_are_maximal_runs, clues_can_be_placed};
pub use laws::{
    complete_searches_decide, fit_puzzles_are_fit, one_file_is_one_document,
    plain_lines_are_one_solution, printed_bytes_are_accepted, proofs_are_verified,
    published_pairs_are_accepted, published_proofs_are_verified, started_prints_are_accepted,
    unique_pictures_are_published,
};
pub use lines::{answered, answered_until};
pub use list::{Call, call_all, edit_and_undo, edit_twice, verdict_after};
pub use printed::{check_printed, verify_printed, verify_published};
pub use runs::{
    Printed, Run, run_accepts_with_givens, run_decides, run_prints_what_run_accepts,
    run_proves_what_run_accepts, run_with,
};
pub use stroke::{Step, step_or_keep};
pub use tree_steps::trees_are_told_step_by_step;
pub use verdict::{is_unique, other_shown};
pub use work::{evaluations_of, evaluations_of_verdict};
