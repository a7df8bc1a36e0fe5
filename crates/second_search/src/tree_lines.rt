//! The lines of a tree, as a search writes them.

ghost use Rattle.std.specs.Prelude.{◌≡◌, ◌+◌, ◌∷◌, [], OnOk};
ghost use Rattle.second_search.specs.Trees.{Adds};

use cert_text::{CellNumber, CertLine, LineNumber};
use picture::LineId;
use std::alloc::AllocError;
use trail::Cell;

/// The lines of a tree from its root: all that were written, or none, where a search only needs to know that the tree is
/// complete.
#[derive(Drop)]
pub enum Lines {
    Kept(Vec<CertLine>),
    Dropped,
}

impl Lines {
    // Writes one more line.
    pub(crate) fn add(&mut self, line: CertLine) -> Result<(), AllocError>
        ensures { OnOk result (Adds self.old self.new (line ∷ [])) }
    {
        match self {
            Lines::Kept(lines) => lines.push(line)?,
            Lines::Dropped => {}
        }
        Ok(())
    }
}

// A line as a certificate names it.
pub(crate) fn line_number(line: LineId) -> LineNumber
    ensures axis { result.axis ≡ line.axis }
    ensures number { result.number ≡ line.at + 1 }
{
    LineNumber {
        axis: line.axis,
        number: u16::from(line.at) + 1,
    }
}

// A cell as a certificate names it.
pub(crate) fn cell_number(cell: Cell) -> CellNumber
    ensures row { result.row ≡ cell.row + 1 }
    ensures col { result.col ≡ cell.col + 1 }
{
    CellNumber {
        row: u16::from(cell.row) + 1,
        col: u16::from(cell.col) + 1,
    }
}
