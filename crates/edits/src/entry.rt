//! What is kept of an accepted edit, so that it can be taken back.

ghost use Rattle.std.specs.Prelude.{◌≡◌, None, IfOk};

use crate::edit::Edit;
use crate::facts::know;
use crate::kept::{kept_cells, kept_givens, kept_triple};
use crate::parts::{
    added, deleted, inserted, painted, pinned, recoloured, restored, swapped, unpinned, with_cells,
    without_last,
};
use picture::{Document, Rgb};
use std::alloc::{AllocError, Global};

/// A lawful edit of a document, and what is needed to take it back.
#[derive(Debug, Drop)]
pub struct Entry {
    /// The edit.
    pub edit: Edit,
    /// The row, the column and the old colour of each cell that a paint, a fill or a recolouring changed, or that a
    /// deleted line had, in row order.
    pub cells: Vec<(u8, u8, u8)>,
    /// The old colour of the palette's number that the edit set, if it set one.
    pub triple: Option<Rgb>,
    /// The row and the column of each given that a deleted line had, in row order.
    pub givens: Vec<(u8, u8)>,
}

impl Entry {
    ghost use Rattle.edits.specs.Design.{Design, design_of};
    ghost use Rattle.edits.specs.Edit.{edited};
    ghost use Rattle.edits.specs.Fault.{edit_fault};
    ghost use Rattle.edits.specs.Note.{IsEntry, IsStep, note_for, note_of};

    /// The entry of an edit that no error refuses. Its allocator is kept with its lists.
    #[tactic(auto, using(crate::proofs::FaultLemmas::lawful, crate::proofs::FaultLemmas::entry_of))]
    pub fn of(alloc: Global, document: &Document, edit: &Edit) -> Result<Entry, AllocError>
        requires { edit_fault (design_of document.now) edit.now ≡ None }
        ensures note { IfOk result
            (λ entry. note_of entry ≡ note_for (design_of document.now) edit.now) }
        ensures entry { IfOk result (λ entry. IsEntry (design_of document.now) (note_of entry)) }
    {
        know(document);
        Ok(Entry {
            edit: *edit,
            cells: kept_cells(alloc, &document.picture, edit)?,
            triple: kept_triple(&document.palette, edit),
            givens: kept_givens(alloc, document, edit)?,
        })
    }

    /// The document after the edit. The entry must be that of an edit of this document.
    pub fn apply(&self, document: &Document) -> Result<Document, AllocError>
        requires { IsEntry (design_of document.now) (note_of self.now) }
        ensures { IfOk result (λ d. design_of d ≡ edited (design_of document.now) self.now.edit) }
    {
        match self.edit {
            Edit::Paint { .. } | Edit::Fill { .. } | Edit::Recolour { .. } => {
                painted(document, &self.edit, &self.cells)
            }
            Edit::InsertLine { line } => inserted(document, line),
            Edit::DeleteLine { line } => deleted(document, line),
            Edit::SwapLines {
                axis,
                first,
                second,
            } => swapped(document, axis, first, second),
            Edit::AddColour { rgb } => added(document, rgb),
            Edit::SetColour { colour, rgb } => recoloured(document, colour, rgb),
            Edit::Pin { row, col } => pinned(document, row, col),
            Edit::Unpin { row, col } => unpinned(document, row, col),
        }
    }

    /// The document before the edit. The entry must be that of an edit that gave this document.
    pub fn revert(&self, document: &Document) -> Result<Document, AllocError>
        requires { (before : Design) × IsStep before (note_of self.now) (design_of document.now) }
        ensures { IfOk result (λ d.
            (before : Design) → IsStep before (note_of self.now) (design_of document.now)
            → design_of d ≡ before) }
    {
        know(document);
        match self.edit {
            Edit::Paint { .. } | Edit::Fill { .. } | Edit::Recolour { .. } => {
                with_cells(document, &self.cells)
            }
            Edit::InsertLine { line } => deleted(document, line),
            Edit::DeleteLine { line } => restored(document, line, &self.cells, &self.givens),
            Edit::SwapLines {
                axis,
                first,
                second,
            } => swapped(document, axis, first, second),
            Edit::AddColour { .. } => without_last(document),
            Edit::SetColour { colour, .. } => match self.triple {
                Some(rgb) => recoloured(document, colour, rgb),
                None => document.copy(),
            },
            Edit::Pin { row, col } => unpinned(document, row, col),
            Edit::Unpin { row, col } => pinned(document, row, col),
        }
    }
}
