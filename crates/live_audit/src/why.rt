//! Why a colour is not in a cell.

use justify::Reason;

/// Whether a colour can be in a cell, and if not why.
#[derive(Drop)]
pub enum Why {
    /// The colour is left in the cell.
    Possible,
    /// The cell is a given of another colour.
    Given,
    /// A step of the book excludes the colour.
    By(Reason),
}
