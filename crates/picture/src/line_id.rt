//! Rows and columns by name: an axis and a place.

ghost use Rattle.std.specs.Prelude.{◌≡◌};
ghost use Rattle.picture.specs.CrossingLines.{crossing, crossing_at};

/// The direction of a line: a row or a column.
#[derive(Clone, Copy, Debug, PartialEq, Eq)]
pub enum Axis {
    /// A row, read from the left.
    Across,
    /// A column, read from the top.
    Down,
}

impl Axis {
    /// The other axis, that of the lines that cross.
    pub fn crossing(self) -> Axis
        ensures { result ≡ crossing self }
    {
        match self {
            Axis::Across => Axis::Down,
            Axis::Down => Axis::Across,
        }
    }
}

/// The name of a row or of a column: its axis, and its place from 0.
#[derive(Clone, Copy, Debug, PartialEq, Eq)]
pub struct LineId {
    pub axis: Axis,
    pub at: u8,
}

impl LineId {
    /// The line that crosses this one at a place along it.
    pub fn crossing(self, at: u8) -> LineId
        ensures { result ≡ crossing_at self at }
    {
        let axis = self.axis.crossing();
        LineId { axis, at }
    }
}
