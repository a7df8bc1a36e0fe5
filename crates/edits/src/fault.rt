//! Why an edit is refused.

ghost use Rattle.std.specs.Prelude.{◌≡◌};
ghost use Rattle.edits.specs.declared.fault.EditFault.TheVariants.{Memory};
ghost use Rattle.edits.specs.Fault.{fault_name};

use std::alloc::AllocError;
use thiserror::Error;

/// Why an edit, an undo or a redo is refused. The answer is the first of these, in this order, that holds. It is
/// `Memory` only where no other holds.
#[derive(Clone, Copy, Debug, PartialEq, Eq, Error)]
pub enum EditFault {
    /// A cell or a line lies outside the picture, or a rectangle has no cell.
    #[error("outside the picture")]
    Place,
    /// The palette has no colour of that number.
    #[error("no such colour")]
    Colour,
    /// The axis has 120 lines already, so none can be inserted.
    #[error("the picture has 120 such lines already")]
    TooLarge,
    /// The line is the only one of its axis, so it cannot be deleted.
    #[error("the only line of its axis")]
    LastLine,
    /// A sample is above the palette's maxval.
    #[error("a sample is above the maxval")]
    SampleOver,
    /// The palette has 16 colours already.
    #[error("the palette has 16 colours already")]
    PaletteFull,
    /// The palette has the colour already, at another number.
    #[error("the colour stands at another number")]
    DuplicateColour,
    /// The colour of the background cannot be set.
    #[error("the background keeps its colour")]
    Background,
    /// The document would be the same.
    #[error("nothing would change")]
    NoChange,
    /// There is nothing to undo.
    #[error("nothing to undo")]
    UndoEmpty,
    /// There is nothing to redo.
    #[error("nothing to redo")]
    RedoEmpty,
    /// Memory ran out.
    #[error("out of memory")]
    Memory,
}

impl EditFault {
    /// The error's name, as the variant is called.
    pub fn name(&self) -> &'static str
        ensures { result.now ≡ fault_name self.now }
    {
        match self {
            EditFault::Place => "Place",
            EditFault::Colour => "Colour",
            EditFault::TooLarge => "TooLarge",
            EditFault::LastLine => "LastLine",
            EditFault::SampleOver => "SampleOver",
            EditFault::PaletteFull => "PaletteFull",
            EditFault::DuplicateColour => "DuplicateColour",
            EditFault::Background => "Background",
            EditFault::NoChange => "NoChange",
            EditFault::UndoEmpty => "UndoEmpty",
            EditFault::RedoEmpty => "RedoEmpty",
            EditFault::Memory => "Memory",
        }
    }
}

impl From<AllocError> for EditFault {
    ghost from_gives = { λ _ e. e ≡ Memory };

    fn from(_refused: AllocError) -> EditFault {
        EditFault::Memory
    }
}
