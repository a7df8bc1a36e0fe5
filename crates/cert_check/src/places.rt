//! From the numbers in a certificate to the lines and cells of a picture.

ghost use Rattle.std.specs.Prelude.{◌≡◌, ◌-◌, MatchOption};
ghost use Rattle.cert_check.specs.Puzzle.{HasCellNumber, HasLineNumber, line_id};

use cert_text::{CellNumber, LineNumber};
use picture::{LineId, Picture};
use trail::Cell;

/// The line that a number names, or None where the picture does not have it.
pub fn line_at(picture: &Picture, line: LineNumber) -> Option<LineId>
    ensures { MatchOption
        result
        (HasLineNumber picture.now line → ⊥)
        (λ found. HasLineNumber picture.now line × (found ≡ line_id line)) }
{
    if line.number == 0 || line.number > u16::from(picture.line_count(line.axis)) {
        return None;
    }
    let at = (line.number - 1) as u8;
    Some(LineId {
        axis: line.axis,
        at,
    })
}

/// The cell that two numbers name, or None outside the picture.
pub fn cell_in(picture: &Picture, cell: CellNumber) -> Option<Cell>
    ensures { MatchOption
        result
        (HasCellNumber picture.now cell → ⊥)
        (λ found. HasCellNumber picture.now cell
        × (found.row ≡ cell.row - 1) × (found.col ≡ cell.col - 1)) }
{
    let (height, width) = (u16::from(picture.height()), u16::from(picture.width()));
    if cell.row == 0 || cell.row > height || cell.col == 0 || cell.col > width {
        return None;
    }
    Some(Cell {
        row: (cell.row - 1) as u8,
        col: (cell.col - 1) as u8,
    })
}
