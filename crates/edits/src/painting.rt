//! Cells that an edit paints.

ghost use Rattle.std.specs.Prelude.{◌≡◌, ◌≢◌, [], false, IfOk, MatchBool};
ghost use Rattle.edits.specs.Edit.{colour_after};
ghost use Rattle.edits.specs.Conditions.{is_outside};
ghost use Rattle.edits.specs.Note.{changed_cells};
ghost use Rattle.edits.specs.Areas.{IsArea};

use crate::cells::Cell;
use crate::edit::Edit;
use picture::Picture;
use std::alloc::{AllocError, Global};

// The rows from `top` to before `below`, and the columns from `left` to before `beyond`.
#[derive(Clone, Copy)]
struct Area {
    top: u8,
    below: u8,
    left: u8,
    beyond: u8,
}

impl Edit {
    /// The colour that a cell has afterwards where the edit moves no line.
    pub(crate) fn colour_after(&self, row: u8, col: u8, old: u8) -> u8
        ensures { result ≡ colour_after self.now row col old }
    {
        match *self {
            Edit::Paint {
                row: at,
                col: across,
                colour,
            } if row == at && col == across => colour,
            Edit::Fill {
                top,
                left,
                bottom,
                right,
                colour,
            } if top <= row && row <= bottom && left <= col && col <= right => colour,
            Edit::Recolour { source, target } if old == source => target,
            _ => old,
        }
    }

    // Outside this area the edit changes no colour.
    #[tactic(auto, using(crate::proofs::PaintLemmas::areas))]
    fn area(&self, picture: &Picture) -> Area
        requires { is_outside picture.now self.now ≡ false }
        ensures { IsArea self.now picture.now result.top result.below result.left result.beyond }
    {
        let (height, width) = (picture.height(), picture.width());
        let (top, below, left, beyond) = match *self {
            Edit::Paint { row, col, .. } => (row, row + 1, col, col + 1),
            Edit::Fill {
                top,
                left,
                bottom,
                right,
                ..
            } => (top, bottom + 1, left, right + 1),
            _ => (0, height, 0, width),
        };
        Area {
            top,
            below,
            left,
            beyond,
        }
    }
}

#[tactic(auto, using(crate::proofs::PaintLemmas::painting))]
/// The cells that an edit gives another colour, with their old ones, in row order.
pub fn changed_cells(alloc: Global, picture: &Picture, edit: &Edit) -> Result<Vec<Cell>, AllocError>
    requires { is_outside picture.now edit.now ≡ false }
    ensures { IfOk result (λ cells. cells.items ≡ changed_cells edit.now picture.now) }
{
    let area = edit.area(picture);
    let mut cells = Vec::new(alloc);
    for row in area.top..area.below {
        for col in area.left..area.beyond {
            let old = picture.cell(row, col);
            if edit.colour_after(row, col, old) != old {
                cells.push((row, col, old))?;
            }
        }
    }
    Ok(cells)
}

#[tactic(auto, using(crate::proofs::PaintLemmas::painting))]
/// Whether an edit gives some cell another colour.
pub(crate) fn changes_cells(picture: &Picture, edit: &Edit) -> bool
    requires { is_outside picture.now edit.now ≡ false }
    ensures { MatchBool result (changed_cells edit.now picture.now ≢ [])
        (changed_cells edit.now picture.now ≡ []) }
{
    let area = edit.area(picture);
    for row in area.top..area.below {
        for col in area.left..area.beyond {
            let old = picture.cell(row, col);
            if edit.colour_after(row, col, old) != old {
                return true;
            }
        }
    }
    false
}
