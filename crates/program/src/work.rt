//! Carries out the task that the words ask for: a session, a check, a certificate, or the clues of the input.

ghost use Rattle.program_options.specs.Options.{IsLawful};
ghost use Rattle.command_line.specs.Words.{IsLawfulTask};
ghost use Rattle.program.specs.Work.{CarriesOut, ProvesFile, ShowsClues, Works};
ghost use Rattle.program.specs.World.{world};

use crate::assessing::assess_files;
use crate::files::{Files, read_file};
use crate::input::read_input;
use answers::{Options, ProgramFault, ProveOptions, run_check, run_clues, run_prove, start_bench};
use command_line::Task;
use picture::send;
use session::run_session;
use std::alloc::Global;
use std::io::{Read, Write};

/// Carries out a task on the files that it names; a check reads the picture's file first, and that of the givens last, and so does the making of a certificate. The error is that of the
/// file, the certificate or the input, of reading or writing, or `Memory`. Where a file could not be read, the input
/// was left alone and nothing was written.
pub fn carry_out<F: Files, R: Read, W: Write>(
    alloc: Global,
    task: &Task<'_>,
    files: &mut F,
    reader: &mut R,
    writer: &mut W,
) -> Result<(), ProgramFault>
    requires { IsLawfulTask task.now }
    ensures { CarriesOut (F.held files.old)
        (world (F.opened files.old) (F.faults files.old)
        (R.remaining reader.old) (W.contents writer.old))
        (world (F.opened files.new) (F.faults files.new)
        (R.remaining reader.new) (W.contents writer.new))
        task.now result }
{
    match task {
        Task::Clues => show_clues(alloc, files, reader, writer),
        Task::Work { file, options } => {
            let file = read_file(alloc, files, file)?;
            run_work(alloc, &file, *options, reader, writer)
        }
        Task::Check {
            file,
            cert,
            givens,
            background,
        } => {
            let file = read_file(alloc, files, file)?;
            let cert = read_file(alloc, files, cert)?;
            let Some(givens) = givens else {
                return run_check(alloc, &file, &cert, None, *background, writer);
            };
            let givens = read_file(alloc, files, givens)?;
            run_check(
                alloc,
                &file,
                &cert,
                Some(givens.as_slice()),
                *background,
                writer,
            )
        }
        Task::Prove {
            file,
            givens,
            options,
        } => show_proof(alloc, file, *givens, *options, files, writer),
        Task::Assess {
            files: paths,
            options,
            givens,
            cert,
        } => assess_files(alloc, paths, (*givens, *cert), options, files, writer),
        Task::Help(text) => Ok(send(text.as_bytes(), writer)?),
    }
}

// Writes a certificate of the picture of a file: where a file of givens is named, with these.
fn show_proof<F: Files, W: Write>(
    alloc: Global,
    file: &str,
    givens: Option<&str>,
    options: ProveOptions,
    files: &mut F,
    writer: &mut W,
) -> Result<(), ProgramFault>
    ensures { (input : _) → ProvesFile (F.held files.old) file.now givens.entry options
        (world (F.opened files.old) (F.faults files.old) input (W.contents writer.old))
        (world (F.opened files.new) (F.faults files.new) input (W.contents writer.new)) result }
{
    let file = read_file(alloc, files, file)?;
    let Some(givens) = givens else {
        return run_prove(alloc, &file, None, options, writer);
    };
    let givens = read_file(alloc, files, givens)?;
    run_prove(alloc, &file, Some(givens.as_slice()), options, writer)
}

// Writes the clues of the picture that is the whole input.
fn show_clues<F: Files, R: Read, W: Write>(
    alloc: Global,
    files: &mut F,
    reader: &mut R,
    writer: &mut W,
) -> Result<(), ProgramFault>
    ensures { ShowsClues
        (world (F.opened files.old) (F.faults files.old)
        (R.remaining reader.old) (W.contents writer.old))
        (world (F.opened files.new) (F.faults files.new)
        (R.remaining reader.new) (W.contents writer.new)) result }
{
    let bytes = read_input(alloc, files, reader)?;
    run_clues(alloc, &bytes, None, writer)
}

/// Opens a file and runs a session on it: each line of the reader's input is answered on the writer.
///
/// Where the file is refused, its error is returned, and nothing was read or written. Running out of memory inside the
/// session only refuses a command.
pub fn run_work<R: Read, W: Write>(
    alloc: Global,
    file: &[u8],
    options: Options,
    reader: &mut R,
    writer: &mut W,
) -> Result<(), ProgramFault>
    requires { IsLawful options }
    ensures { Works
        (R.remaining reader.old) (R.remaining reader.new)
        (W.contents writer.old) (W.contents writer.new)
        file.now options result }
{
    let mut bench = start_bench(alloc, file, &options)?;
    run_session(alloc, reader, writer, &mut bench)?;
    Ok(())
}
