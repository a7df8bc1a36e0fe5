//! Why a line is not a command.

ghost use Rattle.std.specs.Prelude.{◌≡◌};
ghost use Rattle.command_text.specs.Faults.{name_of};

use thiserror::Error;

/// Why a line is not a command: the first of these errors that applies. Word errors are looked for from the left.
#[derive(Clone, Copy, Debug, PartialEq, Eq, Error)]
pub enum CommandFault {
    /// The line has more than 200 bytes.
    #[error("the line has more than 200 bytes")]
    LongLine,
    /// No command begins with these words.
    #[error("no such command")]
    UnknownWord,
    /// The line has too few or too many words for its command.
    #[error("the command has another number of words")]
    WordCount,
    /// A word is not a number, or not in the range for its place.
    #[error("not a number that may stand here")]
    BadNumber,
    /// A word is not a colour's letter.
    #[error("not a colour's letter")]
    BadColour,
}

impl CommandFault {
    /// The error's name, as the variant is called.
    pub fn name(&self) -> &'static str
        ensures { result.now ≡ name_of self.now }
    {
        match self {
            CommandFault::LongLine => "LongLine",
            CommandFault::UnknownWord => "UnknownWord",
            CommandFault::WordCount => "WordCount",
            CommandFault::BadNumber => "BadNumber",
            CommandFault::BadColour => "BadColour",
        }
    }
}
