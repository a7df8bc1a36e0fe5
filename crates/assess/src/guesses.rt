//! The figures of a tree.

/// How many guesses a tree makes, and how many of them stand in each other.
#[derive(Clone, Copy, Debug, PartialEq, Eq)]
pub struct Guesses {
    /// Its splits.
    pub splits: u64,
    /// How many splits stand in each other at most.
    pub depth: u64,
}
