//! The reader of a file of givens.

ghost use Rattle.std.specs.Prelude.{◌≡◌, ◌+◌, ◌≤◌, ◌<◌, ◌^◌, length, false, true, IfOk, MatchOption};
ghost use Rattle.text_check.specs.Givens.{AreInside, IsRead, cells_of, given_on, is_inside};

use crate::givens_fault::GivensFault;
use cert_text::{CellNumber, first_line, given_in};
use picture::{CellSet, MAX_SIDE};

// The cell that a line gives, as `given 3 4`, with or without a carriage return at its end. None for other lines.
fn cell_on(line: &[u8]) -> Option<CellNumber>
    ensures { result ≡ given_on line.now }
{
    match line {
        [front @ .., b'\r'] => given_in(front),
        line => given_in(line),
    }
}

// The row and the column of a cell, from 0. None outside a picture of this height and width.
fn cell_in(cell: CellNumber, height: u8, width: u8) -> Option<(u8, u8)>
    ensures { MatchOption
        result
        (is_inside height width cell ≡ false)
        (λ found. (is_inside height width cell ≡ true)
        × (found.0 + 1 ≡ cell.row) × (found.1 + 1 ≡ cell.col)) }
{
    if cell.row == 0 || cell.row > u16::from(height) {
        return None;
    }
    if cell.col == 0 || cell.col > u16::from(width) {
        return None;
    }
    Some(((cell.row - 1) as u8, (cell.col - 1) as u8))
}

#[tactic(auto, using(crate::proofs::GivensLemmas::reading))]
/// Reads a file of givens for a picture of this height and width: the set of the cells that are published.
///
/// Lines end with a line feed, which the last may lack; one carriage return at the end of a line is left out. Each is `given R C`,
/// with single spaces and numbers of one to three digits without leading zeros, counted from 1; in any order, none twice. An empty
/// text has no givens. The first error from the top is returned. Nothing is allocated.
pub fn published_cells(bytes: &[u8], height: u8, width: u8) -> Result<CellSet, GivensFault>
    requires rows { height ≤ MAX_SIDE }
    requires columns { width ≤ MAX_SIDE }
    ensures read { IsRead (cells_of height width bytes.now) result }
    ensures inside { IfOk result (λ set. AreInside height width set) }
{
    let mut cells = CellSet::empty();
    let mut number = 1;
    let mut rest = bytes;
    while let Some((line, behind)) = first_line(rest) {
        let Some(cell) = cell_on(line) else {
            return Err(GivensFault::BadLine(number));
        };
        let Some((row, col)) = cell_in(cell, height, width) else {
            return Err(GivensFault::Place(number));
        };
        if cells.has(row, col) {
            return Err(GivensFault::Repeated(number));
        }
        cells.put(row, col);
        number += 1;
        rest = behind;
    }
    Ok(cells)
}
