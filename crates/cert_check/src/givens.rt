//! The givens of a certificate.

ghost use Rattle.std.specs.Prelude.{◌≡◌, ◌+◌, ◌<◌, ◌^◌, length, IfErr, OnOk};
ghost use Rattle.std.specs.List.{AllByRecursion};
ghost use Rattle.line_facts.specs.FactSets.{SameShape};
ghost use Rattle.cert_check.specs.FirstFault.{GivenFault};
ghost use Rattle.cert_check.specs.Puzzle.{HasCellNumber, with_givens};

use crate::places::cell_in;
use cert_text::{CellNumber, CertFault};
use line_facts::Facts;
use picture::Picture;

// The number of the certificate's line with the first given.
const FIRST_LINES: usize = 2;

/// Leaves only the picture's colour in each given. Facts without an exclusion become those at the root of a certificate. The
/// first given that lies outside the picture is the error `Place`, with its line in the certificate.
pub fn set_givens(
    picture: &Picture,
    facts: &mut Facts,
    givens: &[CellNumber],
) -> Result<(), CertFault>
    requires same_shape { SameShape picture.now facts.old }
    requires few { FIRST_LINES + length givens.now < 2 ^ 64 }
    ensures facts { OnOk result (facts.new ≡ with_givens picture.now givens.now facts.old) }
    ensures same_shape { OnOk result (SameShape picture.now facts.new) }
    ensures first { IfErr result (GivenFault picture.now FIRST_LINES givens.now) }
    ensures outside { IfErr result
        (λ _. AllByRecursion (HasCellNumber picture.now) givens.now → ⊥) }
    ensures inside { OnOk result (AllByRecursion (HasCellNumber picture.now) givens.now) }
{
    for (i, given) in givens.iter().enumerate() {
        let Some(cell) = cell_in(picture, *given) else {
            return Err(CertFault::Place(FIRST_LINES + i));
        };
        let colour = picture.cell(cell.row, cell.col);
        facts.set_left(cell.row, cell.col, 1 << colour);
    }
    Ok(())
}
