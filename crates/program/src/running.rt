//! What the program does for its arguments.

ghost use Rattle.std.specs.Prelude.{◌≡◌, map, string_bytes, IfOk, MatchResult};
ghost use Rattle.program.specs.Run.{Answers, AnswersAll, Ends, IsRefused, texts};
ghost use Rattle.program.specs.World.{world};

use crate::ending::{Ended, end_with};
use crate::files::Files;
use crate::work::carry_out;
use answers::ProgramFault;
use command_line::read_words;
use std::alloc::{AllocError, Global};
use std::io::{Read, Write};

/// The whole program: what it does for its arguments, or for the error with which reading them failed. The files that they
/// name are opened by `files`, standard input is `reader`, standard output `writer`, and the error message goes to `errors`.
pub fn run<F: Files, R: Read, W: Write, V: Write>(
    alloc: Global,
    arguments: Result<Vec<String>, ProgramFault>,
    files: &mut F,
    reader: &mut R,
    writer: &mut W,
    errors: &mut V,
) -> Ended
    ensures { let before = world (F.opened files.old) (F.faults files.old)
        (R.remaining reader.old) (W.contents writer.old) in
        let after = world (F.opened files.new) (F.faults files.new)
        (R.remaining reader.new) (W.contents writer.new) in
        Ends (λ outcome. MatchResult arguments
        (λ texts. AnswersAll (map (λ text. string_bytes text) texts.items) (F.held files.old)
        before after outcome)
        (λ fault. IsRefused fault before after outcome))
        (V.contents errors.old) (V.contents errors.new) result }
{
    match arguments {
        Ok(arguments) => {
            let outcome = answer_all(alloc, &arguments, files, reader, writer);
            end_with(outcome, errors)
        }
        Err(fault) => end_with(Err(fault), errors),
    }
}

// Answers arguments that are texts, without the error line and the status.
fn answer_all<F: Files, R: Read, W: Write>(
    alloc: Global,
    arguments: &[String],
    files: &mut F,
    reader: &mut R,
    writer: &mut W,
) -> Result<(), ProgramFault>
    ensures { AnswersAll (map (λ text. string_bytes text) arguments.now) (F.held files.old)
        (world (F.opened files.old) (F.faults files.old)
        (R.remaining reader.old) (W.contents writer.old))
        (world (F.opened files.new) (F.faults files.new)
        (R.remaining reader.new) (W.contents writer.new)) result }
{
    let words = words_of(alloc, arguments)?;
    answer(alloc, &words, files, reader, writer)
}

// The arguments as string slices.
fn words_of<'a>(alloc: Global, arguments: &'a [String]) -> Result<Vec<&'a str>, AllocError>
    ensures { IfOk result
        (λ words. texts words.items ≡ map (λ text. string_bytes text) arguments.now) }
{
    let mut words = Vec::new(alloc);
    for text in arguments {
        words.push(text.as_str())?;
    }
    Ok(words)
}

/// Carries out what the words ask for, on the files that they name. Wrong words are refused before a file is opened.
pub fn answer<F: Files, R: Read, W: Write>(
    alloc: Global,
    words: &[&str],
    files: &mut F,
    reader: &mut R,
    writer: &mut W,
) -> Result<(), ProgramFault>
    ensures { Answers (texts words.entry.now) (F.held files.old)
        (world (F.opened files.old) (F.faults files.old)
        (R.remaining reader.old) (W.contents writer.old))
        (world (F.opened files.new) (F.faults files.new)
        (R.remaining reader.new) (W.contents writer.new)) result }
{
    let task = read_words(alloc, words)?;
    carry_out(alloc, &task, files, reader, writer)
}
