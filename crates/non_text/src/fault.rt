//! Why a .non text was not read, or not written.

ghost use Rattle.std.specs.Prelude.{◌≡◌};
ghost use Rattle.non_text.specs.Faults.{name_of};
ghost use Rattle.non_text.specs.declared.fault.NonFault.TheVariants.{Memory};

use std::alloc::AllocError;
use thiserror::Error;

/// Why a .non text was not read as a puzzle: the first error in the order of reading.
#[derive(Clone, Copy, Debug, PartialEq, Eq, Error)]
pub enum NonFault {
    /// There is no `width` or no `height` line.
    #[error("the width or the height is missing")]
    MissingSize,
    /// The value of `width` or `height` is not a number from 1 to 120.
    #[error("the width or the height is no number from 1 to 120")]
    BadSize,
    /// A second line has the keyword `width`, `height`, `rows` or `columns`.
    #[error("a keyword stands on two lines")]
    Repeated,
    /// A clue line is neither blank nor numbers between commas, or has a 0 among other numbers.
    #[error("a clue is not numbers between commas")]
    BadClue,
    /// The rows or the columns have no section, or it does not have one clue for each of them.
    #[error("there is not one clue for each line")]
    BadCount,
    /// The blocks of a clue do not fit on its line.
    #[error("a clue is longer than its line")]
    ClueTooLong,
    /// The goal is not one digit 0 or 1 for each cell.
    #[error("the goal is not one digit 0 or 1 for each cell")]
    BadGoal,
    /// The clues of the goal are not those of the puzzle.
    #[error("the goal has other clues")]
    GoalDisagrees,
    /// Memory ran out.
    #[error("out of memory")]
    Memory,
}

/// The result of a part of the reader.
pub(crate) type Read<T> = Result<T, NonFault>;

impl NonFault {
    /// The name of the error's variant.
    pub fn name(&self) -> &'static str
        ensures { result.now ≡ name_of self.now }
    {
        match self {
            NonFault::MissingSize => "MissingSize",
            NonFault::BadSize => "BadSize",
            NonFault::Repeated => "Repeated",
            NonFault::BadClue => "BadClue",
            NonFault::BadCount => "BadCount",
            NonFault::ClueTooLong => "ClueTooLong",
            NonFault::BadGoal => "BadGoal",
            NonFault::GoalDisagrees => "GoalDisagrees",
            NonFault::Memory => "Memory",
        }
    }
}

impl From<AllocError> for NonFault {
    ghost from_gives = { λ _ e. e ≡ Memory };

    fn from(_refused: AllocError) -> NonFault {
        NonFault::Memory
    }
}

/// Why a picture was not written as a .non text.
#[derive(Clone, Copy, Debug, PartialEq, Eq, Error)]
pub enum NonWriteFault {
    /// A cell has a colour above 1. Nothing was written.
    #[error("the picture has more than two colours")]
    TwoColoursOnly,
    /// A write failed. A prefix of the text may have been written.
    #[error("write failed")]
    Write,
    /// Memory ran out. Nothing was written.
    #[error("out of memory")]
    Memory,
}
