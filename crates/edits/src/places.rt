//! Positions along lines.

ghost use Rattle.std.specs.Prelude.{◌≡◌, ◌≤◌};
ghost use Rattle.edits.specs.Note.{cells_along, place_on};

use picture::{Axis, MAX_SIDE, Picture};

/// The row and the column of a position along a line.
pub(crate) fn place_on(axis: Axis, at: u8, position: u8) -> (u8, u8)
    ensures { result ≡ place_on axis at position }
{
    match axis {
        Axis::Across => (at, position),
        Axis::Down => (position, at),
    }
}

/// How many cells the lines of an axis have.
pub(crate) fn line_length(picture: &Picture, axis: Axis) -> u8
    ensures value { result ≡ cells_along axis picture.now }
    ensures fits { result ≤ MAX_SIDE }
{
    picture.line_count(axis.crossing())
}
