//! Assessments of puzzles: a block of lines for each, one after the other.

ghost use Rattle.std.specs.Prelude.{◌≡◌, ◌+◌, ◌<◌, ◌++◌, ◌==◌, ◌∷◌, ℕ, IfErr, IfOk, List, Option, [], length, not, option_map};
ghost use Rattle.program_options.specs.declared.fault.ProgramFault.TheVariants.{Memory};
ghost use Rattle.program.specs.Assess.{AssessesAll, AssessesNamed, AssessesOne, Comes, IsAssessed, IsNotRead, ReadsIfNamed, ended, heading_text, named, number_of, refusal_text, standing_after, standing_by, text_in, worse};
ghost use Rattle.program.specs.declared.assessing.Standing.TheVariants.{Fit};
ghost use Rattle.program.specs.Files.{FailsBy};
ghost use Rattle.program.specs.World.{world};

use crate::files::{Files, read_file};
use answers::{AssessOptions, ProgramFault, run_assess};
use picture::send;
use report_text::push_number;
use std::alloc::{AllocError, Global};
use std::io::Write;

/// What a puzzle came to: it is fit to be published; it is unfit, or was refused; or its file could not be read.
#[derive(Clone, Copy, Debug, PartialEq, Eq)]
pub enum Standing {
    Fit,
    Unfit,
    Unread,
}

/// How puzzles are assessed: the options, and the texts of the files beside them, where they are named.
#[derive(Drop)]
pub struct Asked {
    pub options: AssessOptions,
    pub givens: Option<Vec<u8>>,
    pub cert: Option<Vec<u8>>,
}

// What is to be written for a puzzle, and what it came to.
#[derive(Drop)]
struct Told {
    text: Vec<u8>,
    standing: Standing,
}

/// Assesses the puzzles in files, in their order. The files beside the only one are read first: that of the givens, and that of
/// the certificate.
///
/// Each puzzle has a block on the output, which begins with its number where there are several. A file that cannot be read or is
/// refused has a line in its place, and the others follow. The error is then `Read` if a file could not be read, or else `Unfit` if
/// a puzzle is unfit or was refused. Where memory runs out or a write fails, that is the error, and ends the run.
pub fn assess_files<F: Files, W: Write>(
    alloc: Global,
    paths: &[&str],
    beside: (Option<&str>, Option<&str>),
    options: &AssessOptions,
    files: &mut F,
    writer: &mut W,
) -> Result<(), ProgramFault>
    ensures { (had : Option (List ℕ)) → AssessesNamed
        (F.held files.old) paths.entry.now beside.entry.0 beside.entry.1 options.now
        (world (F.opened files.old) (F.faults files.old) had (W.contents writer.old))
        (world (F.opened files.new) (F.faults files.new) had (W.contents writer.new)) result }
{
    let givens = read_if_named(alloc, files, beside.0)?;
    let cert = read_if_named(alloc, files, beside.1)?;
    let asked = Asked {
        options: *options,
        givens,
        cert,
    };
    assess_each(alloc, files, writer, &asked, paths)
}

// Assesses the puzzles in files, in their order.
fn assess_each<F: Files, W: Write>(
    alloc: Global,
    files: &mut F,
    writer: &mut W,
    asked: &Asked,
    paths: &[&str],
) -> Result<(), ProgramFault>
    ensures { (had : Option (List ℕ)) → AssessesAll (F.held files.old) asked.now
        (not (length paths.entry.now == 1)) 1 paths.entry.now Fit
        (world (F.opened files.old) (F.faults files.old) had (W.contents writer.old))
        (world (F.opened files.new) (F.faults files.new) had (W.contents writer.new)) result }
{
    let mut worst = Standing::Fit;
    for (at, path) in paths.iter().enumerate() {
        let number = number_of(paths.len(), at);
        let standing = assess_one(alloc, files, writer, asked, path, number)?;
        worst = worse(worst, standing);
    }
    ended(worst)
}

// The number of the puzzle at a place, where there are several.
fn number_of(count: usize, at: usize) -> Option<usize>
    requires { at < count }
    ensures { result ≡ number_of (not (count == 1)) (at + 1) }
{
    if count == 1 { None } else { Some(at + 1) }
}

// The text of a file, if one is named.
fn read_if_named<F: Files>(
    alloc: Global,
    files: &mut F,
    path: Option<&str>,
) -> Result<Option<Vec<u8>>, ProgramFault>
    ensures reads { ReadsIfNamed (F.held files.old) path.entry result }
    ensures keeps { (name : List ℕ) → F.held files.new name ≡ F.held files.old name }
    ensures opens { F.opened files.new ≡ F.opened files.old ++ named path.entry }
    ensures cause { FailsBy (F.faults files.old) (F.faults files.new) result }
{
    match path {
        Some(path) => Ok(Some(read_file(alloc, files, path)?)),
        None => Ok(None),
    }
}

// Assesses the puzzle in a file, and writes what comes of it, behind its number where there are several.
fn assess_one<F: Files, W: Write>(
    alloc: Global,
    files: &mut F,
    writer: &mut W,
    asked: &Asked,
    path: &str,
    number: Option<usize>,
) -> Result<Standing, ProgramFault>
    ensures one { (had : Option (List ℕ)) → AssessesOne
        (F.held files.old path.now) asked.now path.now number
        (world (F.opened files.old) (F.faults files.old) had (W.contents writer.old))
        (world (F.opened files.new) (F.faults files.new) had (W.contents writer.new)) result }
    ensures keeps { (name : List ℕ) → F.held files.new name ≡ F.held files.old name }
{
    let told = told_of(alloc, files, asked, path)?;
    let text = numbered(alloc, number, &told.text)?;
    send(&text, writer)?;
    Ok(told.standing)
}

// A text behind the number of its puzzle, where there are several.
fn numbered(alloc: Global, number: Option<usize>, told: &[u8]) -> Result<Vec<u8>, AllocError>
    ensures { IfOk result (λ text. text.items ≡ heading_text number ++ told.now) }
{
    let mut text = heading(alloc, number)?;
    text.extend_from_slice(told)?;
    Ok(text)
}

fn heading(alloc: Global, number: Option<usize>) -> Result<Vec<u8>, AllocError>
    ensures { IfOk result (λ text. text.items ≡ heading_text number) }
{
    let mut text = Vec::new(alloc);
    let Some(number) = number else {
        return Ok(text);
    };
    text.extend_from_slice(b"puzzle ")?;
    push_number(&mut text, number)?;
    text.push(b'\n')?;
    Ok(text)
}

// What is to be written for the puzzle in a file.
fn told_of<F: Files>(
    alloc: Global,
    files: &mut F,
    asked: &Asked,
    path: &str,
) -> Result<Told, ProgramFault>
    ensures comes { IfOk result (λ told. Comes (F.held files.old path.now) asked.now
        (F.faults files.old) (F.faults files.new) told.text.items told.standing) }
    ensures memory { IfErr result (λ e. e ≡ Memory) }
    ensures keeps { (name : List ℕ) → F.held files.new name ≡ F.held files.old name }
    ensures opens { F.opened files.new ≡ F.opened files.old ++ path.now ∷ [] }
{
    match read_file(alloc, files, path) {
        Ok(file) => assessed(alloc, &file, asked),
        Err(fault) => not_read(alloc, &fault),
    }
}

// What is to be written for a puzzle whose file was read.
fn assessed(alloc: Global, file: &[u8], asked: &Asked) -> Result<Told, ProgramFault>
    ensures assessed { IfOk result
        (λ told. IsAssessed file.now asked.now told.text.items told.standing) }
    ensures memory { IfErr result (λ e. e ≡ Memory) }
{
    let (givens, cert) = (text_in(&asked.givens), text_in(&asked.cert));
    match run_assess(alloc, file, givens, cert, &asked.options) {
        Ok(block) => Ok(Told {
            text: block.text,
            standing: standing_by(block.is_fit),
        }),
        Err(fault) => Ok(Told {
            text: refusal(alloc, &fault)?,
            standing: Standing::Unfit,
        }),
    }
}

fn standing_by(is_fit: bool) -> Standing
    ensures { result ≡ standing_by is_fit }
{
    if is_fit {
        Standing::Fit
    } else {
        Standing::Unfit
    }
}

// What is to be written for a puzzle whose file could not be read, or was too long.
fn not_read(alloc: Global, fault: &ProgramFault) -> Result<Told, ProgramFault>
    ensures unread { IfOk result (λ told. IsNotRead fault.now told.text.items told.standing) }
    ensures memory { IfErr result (λ e. e ≡ Memory) }
{
    Ok(Told {
        text: refusal(alloc, fault)?,
        standing: standing_after(fault),
    })
}

fn standing_after(fault: &ProgramFault) -> Standing
    ensures { result ≡ standing_after fault.now }
{
    match fault {
        ProgramFault::Read => Standing::Unread,
        _ => Standing::Unfit,
    }
}

// A text as a slice.
fn text_in(text: &Option<Vec<u8>>) -> Option<&[u8]>
    ensures { option_map (λ bytes. bytes.now) result ≡ text_in text.now }
{
    match text {
        Some(text) => Some(text.as_slice()),
        None => None,
    }
}

#[tactic(auto, using(crate::proofs::AssessLemmas::refusals))]
// The line of a file that is refused. Where memory ran out there is none.
fn refusal(alloc: Global, fault: &ProgramFault) -> Result<Vec<u8>, ProgramFault>
    ensures line { IfOk result (λ text. text.items ≡ refusal_text fault.now) }
    ensures lasts { IfOk result (λ _. fault.now ≡ Memory → ⊥) }
    ensures memory { IfErr result (λ e. e ≡ Memory) }
{
    match fault {
        ProgramFault::Memory => Err(ProgramFault::Memory),
        ProgramFault::TooLong => Ok(line(alloc, "refused too long\n")?),
        ProgramFault::Read => Ok(line(alloc, "refused read\n")?),
        _ => Ok(format!(in alloc; "refused {fault}\n")?.into_bytes()),
    }
}

fn line(alloc: Global, text: &str) -> Result<Vec<u8>, AllocError>
    ensures { IfOk result (λ line. line.items ≡ text.now) }
{
    Vec::from_slice(alloc, text.as_bytes())
}

// The worse of what two puzzles came to.
fn worse(one: Standing, other: Standing) -> Standing
    ensures { result ≡ worse one other }
{
    match (one, other) {
        (Standing::Fit, _) => other,
        (Standing::Unfit, Standing::Unread) => Standing::Unread,
        _ => one,
    }
}

// How a run ends after its last puzzle.
fn ended(worst: Standing) -> Result<(), ProgramFault>
    ensures { result ≡ ended worst }
{
    match worst {
        Standing::Fit => Ok(()),
        Standing::Unfit => Err(ProgramFault::Unfit),
        Standing::Unread => Err(ProgramFault::Read),
    }
}
