//! A document with the history of its edits.

ghost use Rattle.std.specs.Prelude.{◌≡◌, ◌<◌, ◌≤◌, [], None, IfErr, IfOk, IfSome, length, option_copied, option_map, slice_get, unwrap_or};
ghost use Rattle.circular_buffer.specs.Buffer.{last_item};
ghost use Rattle.clues.specs.Change.{IsChangeOf, back};
ghost use Rattle.edits.specs.declared.fault.EditFault.TheVariants.{Memory};
ghost use Rattle.edits.specs.Change.{moves_of};
ghost use Rattle.edits.specs.Design.{design_of};
ghost use Rattle.edits.specs.Fault.{edit_fault};
ghost use Rattle.edits.specs.History.{IsChangeBy, IsPlanFor, advanced, after_edit, history, redo_fault, redone, undo_fault, undone};
ghost use Rattle.edits.specs.Note.{note_for, note_of};
ghost use Rattle.edits.specs.Studio.{future_after, past_after, with_first, with_last, without_first, without_last};

use crate::edit::Edit;
use crate::entry::Entry;
use crate::facts::know;
use crate::fault::EditFault;
use crate::prepared::{Prepared, Step};
use circular_buffer::HeapCircularBuffer;
use picture::Document;
use std::alloc::{AllocError, Global};
use std::marker::Model;

/// The most edits that a studio can be asked to keep.
pub const MAX_DEPTH: u16 = 1000;

/// A document, the edits that led to it, and those that were undone. It keeps what each edit changed, and no document
/// but the present one.
#[derive(Drop)]
pub struct Studio {
    document: Document,
    past: HeapCircularBuffer<Entry>,
    future: HeapCircularBuffer<Entry>,
}

impl Model for Studio {
    ghost use Rattle.edits.specs.Design.{design_of};
    ghost use Rattle.edits.specs.History.{History};
    ghost use Rattle.edits.specs.Studio.{AreRings, history_from};

    ghost Value = { History };

    ghost view = { λ s. history_from (design_of s.document) s.past s.future };

    ghost invariant = { λ s. AreRings (design_of s.document) s.past s.future };
}

impl Studio {
    /// A studio with a document and no history. Its depth, 1 to `MAX_DEPTH`, is how many edits it keeps. Room for that
    /// many entries is allocated here; the lists of an entry are allocated when its edit is prepared.
    pub fn start(alloc: Global, document: Document, depth: u16) -> Result<Studio, AllocError>
        requires { (0 < depth) × (depth ≤ MAX_DEPTH) }
        ensures { IfOk result (λ s. s ≡ history (design_of document) [] [] depth) }
    {
        Ok(Studio {
            document,
            past: HeapCircularBuffer::with_capacity(alloc, usize::from(depth))?,
            future: HeapCircularBuffer::with_capacity(alloc, usize::from(depth))?,
        })
    }

    /// The present document.
    pub fn document(&self) -> &Document
        ensures { design_of result.now ≡ self.now.document }
    {
        &self.document
    }

    /// How many edits can be undone.
    pub fn past_len(&self) -> usize
        ensures { result ≡ length self.now.past }
    {
        self.past.len()
    }

    /// How many edits can be redone.
    pub fn future_len(&self) -> usize
        ensures { result ≡ length self.now.future }
    {
        self.future.len()
    }

    /// What is kept of the edit that an undo would take back, if there is one.
    pub fn last_entry(&self) -> Option<&Entry>
        ensures { option_map note_of (option_copied result)
            ≡ option_map (λ turn. note_for turn.document turn.edit) (last_item self.now.past) }
    {
        self.past.back()
    }

    /// Prepares an edit, or answers the first error that refuses it. The studio stays as it is.
    pub fn prepare(&self, alloc: Global, edit: &Edit) -> Result<Prepared, EditFault>
        ensures refused { IfErr result
            (λ fault. fault ≡ unwrap_or (edit_fault self.now.document edit.now) Memory) }
        ensures lawful { IfOk result (λ _. edit_fault self.now.document edit.now ≡ None) }
        ensures ready { IfOk result (λ p. IsPlanFor self.now p) }
        ensures next { IfOk result
            (λ p. advanced self.now p.advance ≡ after_edit self.now edit.now) }
        ensures change { IfOk result (λ p. IsChangeBy (moves_of edit.now self.now.document.rows)
            self.now.document.rows p.document.rows p.change) }
        ensures exact { IfOk result
            (λ p. IsChangeOf p.change self.now.document.rows p.document.rows) }
    {
        if let Some(fault) = edit.refusal(&self.document) {
            return Err(fault);
        }
        let entry = Entry::of(alloc, &self.document, edit)?;
        let document = entry.apply(&self.document)?;
        let change = entry.change(&self.document, &document);
        Ok(Prepared {
            document,
            step: Step::Edit(entry),
            change,
        })
    }

    /// Prepares to undo the last edit, or answers `UndoEmpty` where there is none. The studio stays as it is.
    pub fn prepare_undo(&self) -> Result<Prepared, EditFault>
        ensures refused { IfErr result (λ fault. fault ≡ unwrap_or (undo_fault self.now) Memory) }
        ensures lawful { IfOk result (λ _. undo_fault self.now ≡ None) }
        ensures ready { IfOk result (λ p. IsPlanFor self.now p) }
        ensures next { IfOk result (λ p. advanced self.now p.advance ≡ undone self.now) }
        ensures change { IfOk result (λ p. IfSome (last_item self.now.past) (λ turn.
            IsChangeBy
            (back (moves_of turn.edit turn.document.rows)) self.now.document.rows
            p.document.rows p.change)) }
        ensures exact { IfOk result
            (λ p. IsChangeOf p.change self.now.document.rows p.document.rows) }
    {
        let entry = self.past.back().ok_or(EditFault::UndoEmpty)?;
        let document = entry.revert(&self.document)?;
        let change = entry.change_back(&document, &self.document);
        Ok(Prepared {
            document,
            step: Step::Undo,
            change,
        })
    }

    /// Prepares to redo the edit that was undone last, or answers `RedoEmpty` where there is none. The studio stays as
    /// it is.
    pub fn prepare_redo(&self) -> Result<Prepared, EditFault>
        ensures refused { IfErr result (λ fault. fault ≡ unwrap_or (redo_fault self.now) Memory) }
        ensures lawful { IfOk result (λ _. redo_fault self.now ≡ None) }
        ensures ready { IfOk result (λ p. IsPlanFor self.now p) }
        ensures next { IfOk result (λ p. advanced self.now p.advance ≡ redone self.now) }
        ensures change { IfOk result (λ p. IfSome (slice_get self.now.future 0) (λ turn.
            IsChangeBy
            (moves_of turn.edit self.now.document.rows) self.now.document.rows p.document.rows
            p.change)) }
        ensures exact { IfOk result
            (λ p. IsChangeOf p.change self.now.document.rows p.document.rows) }
    {
        let entry = self.future.front().ok_or(EditFault::RedoEmpty)?;
        let document = entry.apply(&self.document)?;
        let change = entry.change(&self.document, &document);
        Ok(Prepared {
            document,
            step: Step::Redo,
            change,
        })
    }

    /// Commits a step that was prepared from the studio's present state. It takes no memory and cannot fail. An edit
    /// forgets the edits that were undone, and the oldest edit of the past where there are as many as the depth
    /// already.
    pub fn commit(&mut self, prepared: Prepared)
        requires { IsPlanFor self.old prepared }
        ensures { self.new ≡ advanced self.old prepared.advance }
    {
        know(&self.document);
        let Prepared { document, step, .. } = prepared;
        go_on(&mut self.past, &mut self.future, step);
        self.document = document;
    }
}

// Moves entries between the rings, as a step does.
fn go_on(past: &mut HeapCircularBuffer<Entry>, future: &mut HeapCircularBuffer<Entry>, step: Step)
    ensures past { past.new ≡ past_after step past.old future.old }
    ensures future { future.new ≡ future_after step past.old future.old }
{
    match step {
        Step::Edit(entry) => {
            let _ = past.push_back(entry);
            future.clear();
        }
        Step::Undo => {
            if let Some(entry) = past.pop_back() {
                let _ = future.push_front(entry);
            }
        }
        Step::Redo => {
            if let Some(entry) = future.pop_front() {
                let _ = past.push_back(entry);
            }
        }
    }
}
