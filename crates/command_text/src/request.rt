//! What a line of a session asks for, if it asks for anything.

ghost use Rattle.std.specs.Prelude.{◌≡◌, IfOk};
ghost use Rattle.picture.specs.Readers.{Reads};
ghost use Rattle.command_text.specs.Lines.{AsksBounded, command_of, request_of};
ghost use Rattle.command_text.specs.Parse.{IsBounded};

use crate::command::Command;
use crate::fault::CommandFault;
use crate::parse::read_command;
use crate::words::next_word;

/// The most bytes of a line, without its line feed and a carriage return before that.
pub const MOST_BYTES: usize = 200;

/// What a line asks for.
#[derive(Clone, Copy, Debug, PartialEq, Eq)]
pub enum Request {
    /// Nothing: it has no word, and at most 200 bytes.
    Nothing,
    /// A command.
    Command(Command),
    /// It is not a command, and this is the first error.
    Refused(CommandFault),
}

#[tactic(auto, unfolding(crate::specs::Lines::request_of))]
// What a line without its end asks for.
pub(crate) fn request_of(line: &[u8]) -> Request
    ensures value { result ≡ request_of line.now }
    ensures bounded { AsksBounded result }
{
    if line.len() > MOST_BYTES {
        return Request::Refused(CommandFault::LongLine);
    }
    let Some((first, rest)) = next_word(line) else {
        return Request::Nothing;
    };
    match read_command(first, rest) {
        Ok(command) => Request::Command(command),
        Err(fault) => Request::Refused(fault),
    }
}

/// Reads the command of a line without its end, or answers the first error.
///
/// Words are separated by spaces and TABs. A line of more than 200 bytes is `LongLine`. A first word with which no
/// command begins is `UnknownWord`, and so is a second one that does not complete it. A missing second word and a wrong
/// number of words are `WordCount`. Then the first word from the left that is no number of one to five digits in its range
/// is `BadNumber`, or no colour's letter `BadColour`. Rows, columns and lines are numbered from 1 in the text and from 0
/// in the command. A line of at most 200 bytes without a word, which a session passes over, is `UnknownWord`.
pub fn parse_command(line: &[u8]) -> Result<Command, CommandFault>
    ensures value { Reads (λ c. c) result (command_of line.now) }
    ensures bounded { IfOk result IsBounded }
{
    match request_of(line) {
        Request::Command(command) => Ok(command),
        Request::Refused(fault) => Err(fault),
        Request::Nothing => Err(CommandFault::UnknownWord),
    }
}
