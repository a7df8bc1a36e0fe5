//! The assessments that words ask for.

ghost use Rattle.std.specs.Prelude.{◌≡◌, [], codes, IfOk, option_map, unwrap_or};
ghost use Rattle.clap.specs.Walk.{texts};
ghost use Rattle.clap.specs.Words.{first_value, found_of, matched_of, raw_values};
ghost use Rattle.command_line.specs.Words.{IsAssess, IsLawfulTask, allowance_asked, given_of};

use crate::words::{Task, background_of, has_format};
use clap::ArgMatches;
use command_text::{ASSESS_SPLITS, allowance_in};
use program_options::{AssessOptions, ProgramFault};
use std::alloc::{AllocError, Global};

/// The assessments that words ask for. Givens and a certificate go with one file.
pub(crate) fn assess_of<'a>(
    alloc: Global,
    matches: &ArgMatches<'a>,
) -> Result<Task<'a>, ProgramFault>
    ensures assess { IsAssess (given_of (found_of matches.now)) result }
    ensures lawful { IfOk result IsLawfulTask }
{
    let non = has_format(matches, "non");
    let background = background_of(matches)?;
    if non && background.is_some() {
        return Err(ProgramFault::BackgroundOfNon);
    }
    let allowance = allowance_of(matches)?;
    let files = files_of(alloc, matches)?;
    let (givens, cert) = (matches.get_str("givens"), matches.get_str("certificate"));
    let has_beside = givens.is_some() || cert.is_some();
    if has_beside && files.len() != 1 {
        return Err(ProgramFault::OneFile);
    }
    Ok(Task::Assess {
        files,
        options: AssessOptions {
            non,
            background,
            allowance,
        },
        givens,
        cert,
    })
}

// The puzzles' files.
fn files_of<'a>(alloc: Global, matches: &ArgMatches<'a>) -> Result<Vec<&'a str>, AllocError>
    ensures { IfOk result (λ files. texts files.items
        ≡ unwrap_or
        (option_map raw_values (matched_of (found_of matches.now) (codes "files"))) []) }
{
    match matches.get_strs("files") {
        Some(files) => Vec::from_slice(alloc, files),
        None => Ok(Vec::new(alloc)),
    }
}

// The allowance: a number of splits, or none for `off`.
fn allowance_of(matches: &ArgMatches<'_>) -> Result<Option<u32>, ProgramFault>
    ensures { result ≡ allowance_asked (first_value (found_of matches.now) (codes "allow")) }
{
    let Some(text) = matches.get_str("allow") else {
        return Ok(Some(ASSESS_SPLITS));
    };
    match allowance_in(text.as_bytes()) {
        None => Err(ProgramFault::Allowance),
        Some(allowance) => Ok(allowance),
    }
}
