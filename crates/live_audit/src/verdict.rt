//! The verdict on a picture.

use picture::Picture;

/// Whether another picture of the same size has the clues and, in the givens, the colours.
#[derive(Drop)]
pub enum Verdict<'a> {
    /// There is none.
    Unique,
    /// There is this one.
    Ambiguous(&'a Picture),
    /// The search of a part takes more splits than the allowance, `splits`.
    Undecided { splits: u32 },
}
