//! What is printed for a command that is refused.

ghost use Rattle.std.specs.Prelude.{◌≡◌};
ghost use Rattle.session.specs.Refusal.{refusal_line};

use command_text::CommandFault;
use edits::EditFault;

// Why a line of a session is refused.
#[derive(Clone, Copy)]
pub(crate) enum Refusal {
    // The line is not a command.
    Line(CommandFault),
    // The edit, the undo or the redo was refused.
    Edit(EditFault),
    // A .non text is asked for, and a cell has a colour above 1.
    TwoColoursOnly,
    // Memory ran out.
    Memory,
}

impl Refusal {
    // The whole line that is printed. It is static, so it needs no memory.
    pub(crate) fn line(&self) -> &'static [u8]
        ensures { result.now ≡ refusal_line self.now }
    {
        match self {
            Refusal::Line(CommandFault::LongLine) => b"refused: LongLine\n",
            Refusal::Line(CommandFault::UnknownWord) => b"refused: UnknownWord\n",
            Refusal::Line(CommandFault::WordCount) => b"refused: WordCount\n",
            Refusal::Line(CommandFault::BadNumber) => b"refused: BadNumber\n",
            Refusal::Line(CommandFault::BadColour) => b"refused: BadColour\n",
            Refusal::Edit(EditFault::Place) => b"refused: Place\n",
            Refusal::Edit(EditFault::Colour) => b"refused: Colour\n",
            Refusal::Edit(EditFault::TooLarge) => b"refused: TooLarge\n",
            Refusal::Edit(EditFault::LastLine) => b"refused: LastLine\n",
            Refusal::Edit(EditFault::SampleOver) => b"refused: SampleOver\n",
            Refusal::Edit(EditFault::PaletteFull) => b"refused: PaletteFull\n",
            Refusal::Edit(EditFault::DuplicateColour) => b"refused: DuplicateColour\n",
            Refusal::Edit(EditFault::Background) => b"refused: Background\n",
            Refusal::Edit(EditFault::NoChange) => b"refused: NoChange\n",
            Refusal::Edit(EditFault::UndoEmpty) => b"refused: UndoEmpty\n",
            Refusal::Edit(EditFault::RedoEmpty) => b"refused: RedoEmpty\n",
            Refusal::Edit(EditFault::Memory) => b"refused: Memory\n",
            Refusal::TwoColoursOnly => b"refused: TwoColoursOnly\n",
            Refusal::Memory => b"refused: Memory\n",
        }
    }
}
