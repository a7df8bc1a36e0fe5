//! Reads the words of the command line: the task that they ask for.

ghost use Rattle.std.specs.Prelude.{◌≡◌, ◌↔◌, ◌<◌, ◌≤◌, ◌≢◌, ℕ, Some, [], codes, true, IfOk};
ghost use Rattle.clap.specs.Walk.{texts};
ghost use Rattle.clap.specs.Words.{Text, first_value, found_of, kind_of, one_text, subcommand_rows_of};
ghost use Rattle.command_line.specs.declared.words.Task.TheVariants.{Clues};
ghost use Rattle.command_line.specs.Words.{IsAsked, IsCheck, IsLawfulTask, IsProve, IsTaskOf, IsUntaken, IsWork, Spells, asks_alone, background_asked, given_of};

use crate::assessing::assess_of;
use crate::command::parsed;
use clap::error::ErrorKind;
use clap::{ArgMatches, Error};
use edits::MAX_DEPTH;
use picture::Rgb;
use program_options::{AssessOptions, Options, ProgramFault, ProveOptions, background_in};
use std::alloc::Global;

/// What the words ask the program for. Paths are as they were given.
#[derive(Debug, PartialEq, Eq, Drop)]
pub enum Task<'a> {
    /// The clues of the picture on standard input.
    Clues,
    /// A session on a picture or a puzzle.
    Work {
        file: &'a str,
        options: Options,
    },
    /// A check whether a certificate proves that a picture is the only one with its clues: where a file of givens is named,
    /// with those that are published alone.
    Check {
        file: &'a str,
        cert: &'a str,
        givens: Option<&'a str>,
        background: Option<Rgb>,
    },
    /// A certificate that a picture is the only one with its clues, where one is found: where a file of givens is named, with
    /// exactly those.
    Prove {
        file: &'a str,
        givens: Option<&'a str>,
        options: ProveOptions,
    },
    /// Assessments of puzzles, one after the other.
    Assess {
        files: Vec<&'a str>,
        options: AssessOptions,
        /// The file of the givens that are published with the only puzzle, where one is named.
        givens: Option<&'a str>,
        /// The file of its certificate, where one is named.
        cert: Option<&'a str>,
    },
    /// The parser's text for help or the version, which is to be shown.
    Help(String),
}

// How many edits can be undone where no number is given.
const DEPTH: u16 = 100;

/// Reads the words after the program's own name. No words at all ask for the clues.
///
/// Files, certificate, givens, format, background, history and allowance are those of the words, as the parser reads them. Help
/// and version are a task where nothing else is asked for. The errors are `Words`, which carries the parser's text, `HelpBeside`,
/// `Background`, `BackgroundOfNon`, `Allowance`, `OneFile` and `Memory`.
pub fn read_words<'a>(alloc: Global, words: &'a [&str]) -> Result<Task<'a>, ProgramFault>
    ensures none { words.entry.now ≡ [] → result ≡ Ok Clues }
    ensures lawful { IfOk result IsLawfulTask }
    ensures asked { words.entry.now ≢ [] → IsTaskOf (texts words.entry.now) result }
{
    if words.is_empty() {
        return Ok(Task::Clues);
    }
    match parsed(alloc, words)? {
        Ok(matches) => task_of(alloc, &matches),
        Err(error) => untaken(alloc, words, &error),
    }
}

// The task that words ask for.
fn task_of<'a>(alloc: Global, matches: &ArgMatches<'a>) -> Result<Task<'a>, ProgramFault>
    ensures asked { IsAsked (subcommand_rows_of matches.now) result }
    ensures lawful { IfOk result IsLawfulTask }
{
    if let Some(matches) = matches.subcommand_matches("work") {
        return work_of(matches);
    }
    if let Some(matches) = matches.subcommand_matches("check") {
        return check_of(matches);
    }
    if let Some(matches) = matches.subcommand_matches("prove") {
        return prove_of(matches);
    }
    if let Some(matches) = matches.subcommand_matches("assess") {
        return assess_of(alloc, matches);
    }
    Ok(Task::Clues)
}

// The check that words ask for.
fn check_of<'a>(matches: &ArgMatches<'a>) -> Result<Task<'a>, ProgramFault>
    ensures check { IsCheck (given_of (found_of matches.now)) result }
    ensures lawful { IfOk result IsLawfulTask }
{
    Ok(Task::Check {
        file: matches.get_str("file").unwrap_or(""),
        cert: matches.get_str("cert").unwrap_or(""),
        givens: matches.get_str("givens"),
        background: background_of(matches)?,
    })
}

// The certificate that words ask for.
fn prove_of<'a>(matches: &ArgMatches<'a>) -> Result<Task<'a>, ProgramFault>
    ensures prove { IsProve (given_of (found_of matches.now)) result }
    ensures lawful { IfOk result IsLawfulTask }
{
    Ok(Task::Prove {
        file: matches.get_str("file").unwrap_or(""),
        givens: matches.get_str("givens"),
        options: ProveOptions {
            background: background_of(matches)?,
            single: has_format(matches, "1"),
            complete: matches.get_flag("complete"),
        },
    })
}

// The session that words ask for.
fn work_of<'a>(matches: &ArgMatches<'a>) -> Result<Task<'a>, ProgramFault>
    ensures work { IsWork (given_of (found_of matches.now)) result }
    ensures lawful { IfOk result IsLawfulTask }
{
    let non = has_format(matches, "non");
    let background = background_of(matches)?;
    if non && background.is_some() {
        return Err(ProgramFault::BackgroundOfNon);
    }
    Ok(Task::Work {
        file: matches.get_str("file").unwrap_or(""),
        options: Options {
            non,
            background,
            history: history_of(matches),
        },
    })
}

// Whether the format is the one with this name.
pub(crate) fn has_format(matches: &ArgMatches<'_>, name: &str) -> bool
    ensures { (result ≡ true)
        ↔ (first_value (found_of matches.now) (codes "format") ≡ Some name.now) }
{
    matches
        .get_str("format")
        .is_some_and(|format| format == name)
}

// The colour of the background, where one is given.
pub(crate) fn background_of(matches: &ArgMatches<'_>) -> Result<Option<Rgb>, ProgramFault>
    ensures { result ≡ background_asked (first_value (found_of matches.now) (codes "background")) }
{
    let Some(text) = matches.get_str("background") else {
        return Ok(None);
    };
    match background_in(text.as_bytes()) {
        None => Err(ProgramFault::Background),
        background => Ok(background),
    }
}

// How many edits can be undone. The parser refuses a number that is not from 1 to 1,000.
fn history_of(matches: &ArgMatches<'_>) -> u16
    ensures some { 0 < result }
    ensures fits { result ≤ MAX_DEPTH }
    ensures read { (text : Text) (n : ℕ) → 0 < n → n ≤ 1000 → Spells text n
        → one_text (found_of matches.now) (codes "history") ≡ Some text → result ≡ n }
{
    depth_or_default(matches.get_one::<u16>("history"))
}

// The depth where it is from 1 to 1,000, else the default.
fn depth_or_default(depth: Option<u16>) -> u16
    ensures some { 0 < result }
    ensures fits { result ≤ MAX_DEPTH }
    ensures kept { (n : ℕ) → 0 < n → n ≤ 1000 → depth ≡ Some n → result ≡ n }
{
    match depth {
        Some(depth) if (1..=MAX_DEPTH).contains(&depth) => depth,
        _ => DEPTH,
    }
}

// What comes of an error of the parser: memory ran out, the words are refused, or they ask for help or the version.
fn untaken<'a>(alloc: Global, words: &[&str], error: &Error) -> Result<Task<'a>, ProgramFault>
    ensures said { IsUntaken (texts words.entry.now) (kind_of error.now) result }
    ensures lawful { IfOk result IsLawfulTask }
{
    if error.kind() == ErrorKind::OutOfMemory {
        return Err(ProgramFault::Memory);
    }
    let text = format!(in alloc; "{error}")?;
    if error.use_stderr() {
        Err(ProgramFault::Words(text))
    } else if asks_alone(words) {
        Ok(Task::Help(text))
    } else {
        Err(ProgramFault::HelpBeside)
    }
}

// Whether words that ask for help or the version ask for nothing else.
fn asks_alone(words: &[&str]) -> bool
    ensures { result ≡ asks_alone (texts words.entry.now) }
{
    match *words {
        [_] => true,
        [first, second] => first == "help" || second == "-h" || second == "--help",
        _ => false,
    }
}
