//! Givens by their numbers, as certificates and proofs write them.

ghost use Rattle.std.specs.Prelude.{◌≤◌, ◌<◌, IfOk, OnOk};
ghost use Rattle.picture.specs.Document.{AreInside};
ghost use Rattle.lemma_proof.specs.Naming.{NamesGivens, NamesUpTo};

use cert_text::CellNumber;
use picture::{CellSet, MAX_SIDE, Picture};
use std::alloc::{AllocError, Global};

#[tactic(auto, using(crate::proofs::NumberLemmas::naming))]
// Puts the numbers of the given cells of a row after those of the rows before it.
fn put_row(
    cells: &mut Vec<CellNumber>,
    givens: &CellSet,
    row: u8,
    width: u8,
) -> Result<(), AllocError>
    requires in_rows { row < MAX_SIDE }
    requires in_columns { width ≤ MAX_SIDE }
    requires named { NamesUpTo givens.now row 0 cells.old.items }
    ensures named { OnOk result (NamesUpTo givens.now row width cells.new.items) }
{
    for col in 0..width {
        if givens.has(row, col) {
            cells.push(CellNumber {
                row: u16::from(row) + 1,
                col: u16::from(col) + 1,
            })?;
        }
    }
    Ok(())
}

#[tactic(auto, using(crate::proofs::NumberLemmas::naming))]
/// The givens by their numbers, in the order of rows.
pub fn given_cells(
    alloc: Global,
    picture: &Picture,
    givens: &CellSet,
) -> Result<Vec<CellNumber>, AllocError>
    requires { AreInside givens.now picture.now }
    ensures named { IfOk result (λ cells. NamesGivens picture.now givens.now cells.items) }
{
    let mut cells = Vec::new(alloc);
    for row in 0..picture.height() {
        put_row(&mut cells, givens, row, picture.width())?;
    }
    Ok(cells)
}
