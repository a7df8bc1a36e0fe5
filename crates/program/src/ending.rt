//! How the program ends: the message of an error, and the exit status.

ghost use Rattle.std.specs.Prelude.{◌≡◌, true, OnOk};
ghost use Rattle.std.specs.Io.KnownBytes.{Appends};
ghost use Rattle.std.specs.Process.{exit_status};
ghost use Rattle.program.specs.Endings.{fault_line, line_after, status_after};

use answers::ProgramFault;
use std::io;
use std::io::Write;
use std::process::ExitCode;

/// The exit status of the program, and whether its error message, if it has one, was written.
#[derive(Drop)]
pub struct Ended {
    pub code: ExitCode,
    pub told: bool,
}

/// Writes the message of an error to standard error, and gives the exit status, 0 without one.
pub fn end_with<W: Write>(outcome: Result<(), ProgramFault>, errors: &mut W) -> Ended
    ensures code { exit_status result.code ≡ status_after outcome }
    ensures line { result.told ≡ true
        → Appends (W.contents errors.old) (W.contents errors.new) (line_after outcome) }
{
    let Err(fault) = outcome else {
        return Ended {
            code: ExitCode::from(0),
            told: true,
        };
    };
    let told = tell(&fault, errors).is_ok();
    Ended {
        code: ExitCode::from(fault.status()),
        told,
    }
}

// A text of the parser is written as it is, every other error as a line; nothing where standard output has the word that stands in a
// certificate's place, or the block that says that a puzzle is unfit.
fn tell<W: Write>(fault: &ProgramFault, errors: &mut W) -> io::Result<()>
    ensures { OnOk result
        (Appends (W.contents errors.old) (W.contents errors.new) (fault_line fault.now)) }
{
    match fault {
        ProgramFault::Words(text) => write!(errors, "{text}"),
        ProgramFault::NoCertificate | ProgramFault::Unfit => Ok(()),
        _ => writeln!(errors, "nonobench: {fault}"),
    }
}
