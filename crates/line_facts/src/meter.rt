//! The count of work that calls report.

/// How much work was done: evaluations of lines, and trials that look for premises that a step can do without. Each
/// count stays at the largest `u64` once it is there.
#[derive(Clone, Copy, Debug, PartialEq, Eq)]
pub struct Meter {
    pub evaluations: u64,
    pub trials: u64,
}

/// The counts where nothing was done yet.
pub const NOTHING_DONE: Meter = Meter {
    evaluations: 0,
    trials: 0,
};
