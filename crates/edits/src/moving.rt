//! Givens that move with their lines.

ghost use Rattle.std.specs.Prelude.{◌≡◌, ◌<◌, ◌≤◌, ◌↔◌, IsTrue};
ghost use Rattle.clues.specs.Change.{lines_before};
ghost use Rattle.edits.specs.MovedGivens.{AreMoved, mark_before};

use clues::Change;
use picture::{Axis, CellSet, LineId, MAX_SIDE};

#[tactic(auto, using(crate::proofs::MoveLemmas::moving))]
/// The givens of a picture whose lines have moved. The change leads back, from the new picture to the old one.
pub(crate) fn moved_givens(givens: &CellSet, back: &Change, height: u8, width: u8) -> CellSet
    requires rows { height ≡ lines_before Axis.Across back.now.moves }
    requires columns { width ≡ lines_before Axis.Down back.now.moves }
    requires fits { (height ≤ MAX_SIDE) × (width ≤ MAX_SIDE) }
    ensures { AreMoved givens.now result back.now.moves height width }
{
    let mut moved = CellSet::empty();
    for row in 0..height {
        for col in 0..width {
            if was_given(givens, back, row, col) {
                moved.put(row, col);
            }
        }
    }
    moved
}

// Whether a cell of the new picture was a given at its old place.
fn was_given(givens: &CellSet, back: &Change, row: u8, col: u8) -> bool
    requires row { row < lines_before Axis.Across back.now.moves }
    requires column { col < lines_before Axis.Down back.now.moves }
    ensures { IsTrue result ↔ (mark_before givens.now back.now.moves row col ≡ 1) }
{
    let axis = Axis::Across;
    let line = LineId { axis, at: row };
    match (back.image(line), back.image(line.crossing(col))) {
        (Some(row), Some(column)) => givens.has(row.at, column.at),
        _ => false,
    }
}
