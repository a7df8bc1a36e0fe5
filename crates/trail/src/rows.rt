//! Rows by their names.

ghost use Rattle.std.specs.Prelude.{◌<◌, ◌↔◌, IsTrue};
ghost use Rattle.picture.specs.LineSet.{HasName};
ghost use Rattle.trail.specs.Through.{across};

use picture::{Axis, LineId, LineSet, MAX_SIDE};

/// Whether a set of lines names a row.
pub fn has_row(rows: &LineSet, row: u8) -> bool
    requires { row < MAX_SIDE }
    ensures { IsTrue result ↔ HasName rows.now (across row) }
{
    rows.has(LineId {
        axis: Axis::Across,
        at: row,
    })
}
