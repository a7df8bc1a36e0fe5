//! The program does what its arguments ask for, and opens no other file.

ghost use Rattle.std.specs.Prelude.{◌≡◌, [], map, string_bytes, Ok};
ghost use Rattle.std.specs.Io.KnownBytes.{Keeps};
ghost use Rattle.std.specs.Process.{exit_status};
ghost use Rattle.command_line.specs.declared.words.Task.{Task};
ghost use Rattle.claims.specs.ByWords.{AssessedByWords, CheckedAreUnique, PublishedByWords};
ghost use Rattle.claims.specs.Outcome.{Comes};
ghost use Rattle.claims.specs.Runs.{AssessedAreFit, PublishedAreUnique};
ghost use Rattle.program.specs.Run.{IsTask};
ghost use Rattle.program.specs.World.{world};

use crate::laws::fit_puzzles_are_fit;
use command_line::laws::words_are_known;
use program::{Ended, Files, run};
use session::laws::sessions_are_true;
use std::alloc::Global;
use std::io::{Read, Write};

/// The whole program for arguments that ask for no task: no file is opened, nothing is read, nothing but an error message is
/// written, and the exit status is not 0.
pub fn run_refused<F: Files, R: Read, W: Write, V: Write>(
    alloc: Global,
    arguments: Vec<String>,
    files: &mut F,
    reader: &mut R,
    writer: &mut W,
    errors: &mut V,
) -> Ended
    requires { (task : Task)
        → IsTask (map (λ text. string_bytes text) arguments.items) (Ok task) → ⊥ }
    ensures opened { F.opened files.new ≡ F.opened files.old }
    ensures faultless { F.faults files.new ≡ F.faults files.old }
    ensures read { Keeps (R.remaining reader.old) (R.remaining reader.new) }
    ensures written { Keeps (W.contents writer.old) (W.contents writer.new) }
    ensures status { exit_status result.code ≡ 0 → ⊥ }
{
    run(alloc, Ok(arguments), files, reader, writer, errors)
}

/// The whole program. Of the files that the task of its arguments names, it opens all, or only the first ones. Its exit status
/// is that of its outcome, which is what the arguments and the files call for: a body that does the task and ends with another
/// status does not meet this. With status 1 nothing was written; or, where a certificate was asked for, `ambiguous` or `undecided`; or
/// lines for puzzles that are assessed. With status 0 there is such a task, and it is done. Then the clues or help were written; or
/// a true text for each line of the input; or a certificate; or the block of each puzzle, all of which are fit to be published; or
/// the line of a check. After a check the picture of the first file is the only one of its size with its clues and its colours in the
/// certificate's givens, or, with a file of givens, in the cells that are published.
pub fn run_asked<F: Files, R: Read, W: Write, V: Write>(
    alloc: Global,
    arguments: Vec<String>,
    files: &mut F,
    reader: &mut R,
    writer: &mut W,
    errors: &mut V,
) -> Ended
    ensures { Comes (map (λ text. string_bytes text) arguments.items) (F.held files.old)
        (world (F.opened files.old) (F.faults files.old)
        (R.remaining reader.old) (W.contents writer.old))
        (world (F.opened files.new) (F.faults files.new)
        (R.remaining reader.new) (W.contents writer.new))
        (exit_status result.code) }
{
    sessions_are_true();
    run(alloc, Ok(arguments), files, reader, writer, errors)
}

/// The whole program for the words `check A B`, where A and B do not begin with a hyphen. With status 0, the picture in A is the
/// only one of its size with its clues and its colours in the givens of the certificate in B.
pub fn run_checked<F: Files, R: Read, W: Write, V: Write>(
    alloc: Global,
    arguments: Vec<String>,
    files: &mut F,
    reader: &mut R,
    writer: &mut W,
    errors: &mut V,
) -> Ended
    ensures { CheckedAreUnique (map (λ text. string_bytes text) arguments.items)
        (F.held files.old) (exit_status result.code) }
{
    words_are_known();
    run_asked(alloc, arguments, files, reader, writer, errors)
}

/// The whole program for arguments that ask for a check with a file of givens. With status 0, the picture of the first file is the
/// only one of its size with its clues and its colours in the cells that are published. By the clause `words` this holds for
/// `check --givens G A B` where A, B and G do not begin with a hyphen.
pub fn run_published<F: Files, R: Read, W: Write, V: Write>(
    alloc: Global,
    arguments: Vec<String>,
    files: &mut F,
    reader: &mut R,
    writer: &mut W,
    errors: &mut V,
) -> Ended
    ensures asked { PublishedAreUnique (map (λ text. string_bytes text) arguments.items)
        (F.held files.old) (exit_status result.code) }
    ensures words { PublishedByWords (map (λ text. string_bytes text) arguments.items)
        (F.held files.old) (exit_status result.code) }
{
    words_are_known();
    run_asked(alloc, arguments, files, reader, writer, errors)
}

/// The whole program for arguments that ask for assessments: with status 0, the puzzle in each file has exactly one solution with
/// the givens that are published, and no flaw. By the clause `words` this holds for `assess A ..` where no word after `assess`
/// begins with a hyphen.
pub fn run_assessed<F: Files, R: Read, W: Write, V: Write>(
    alloc: Global,
    arguments: Vec<String>,
    files: &mut F,
    reader: &mut R,
    writer: &mut W,
    errors: &mut V,
) -> Ended
    ensures asked { AssessedAreFit (map (λ text. string_bytes text) arguments.items)
        (F.held files.old) (exit_status result.code) }
    ensures words { AssessedByWords (map (λ text. string_bytes text) arguments.items)
        (F.held files.old) (exit_status result.code) }
{
    words_are_known();
    fit_puzzles_are_fit();
    run_asked(alloc, arguments, files, reader, writer, errors)
}
