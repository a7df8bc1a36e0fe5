//! A step of the history that is ready to be taken.

ghost use Rattle.std.specs.Prelude.{◌≡◌};
ghost use Rattle.edits.specs.Design.{design_of};

use crate::entry::Entry;
use clues::Change;
use picture::Document;
use std::marker::Model;

/// A step of a history: an edit, with what is kept of it, an undo or a redo.
#[derive(Debug, Drop)]
pub(crate) enum Step {
    Edit(Entry),
    Undo,
    Redo,
}

/// An edit, an undo or a redo that can be committed: the document after it, and what it changes.
#[derive(Drop)]
pub struct Prepared {
    pub(crate) document: Document,
    pub(crate) step: Step,
    pub(crate) change: Change,
}

impl Model for Prepared {
    ghost use Rattle.edits.specs.History.{Plan};

    ghost Value = { Plan };

    ghost use Rattle.edits.specs.Prepared.{plan_from};

    ghost view = { λ p. plan_from p.step p.document p.change };
}

impl Prepared {
    /// The document after the step.
    pub fn document(&self) -> &Document
        ensures { design_of result.now ≡ self.now.document }
    {
        &self.document
    }

    /// Which line of the new picture is which line of the old one, and which lines have other cells.
    pub fn change(&self) -> &Change
        ensures { result.now ≡ self.now.change }
    {
        &self.change
    }
}
