//! Line logic run to a fixpoint: books closed line by line, and schedules of lines.
#![tactic(auto)]

mod closing_book;
pub mod laws;
mod schedule;
mod turn;

pub use closing_book::close;
pub use fixpoint::{
    Agenda, CloseFault, InOrder, NewestFirst, all_lines, close_facts, settle_afresh,
};
pub use schedule::run_schedule;
