//! The lines below the givens, with one step or several.

ghost use Rattle.std.specs.Prelude.{◌≡◌, IfOk, IfSome, option_map};
ghost use Rattle.cert_text.specs.Cert.{IsOfLemmas};
ghost use Rattle.cert_text.specs.Steps.{IsPushed, IsRunBegun, one, run_named, run_word, step_named, step_of, steps_of};
ghost use Rattle.cert_text.specs.Text.{words_of};
ghost use Rattle.cert_text.specs.declared.form.Form.TheVariants.{LemmaRuns};

use crate::cert_line::CertLine;
use crate::form::Form;
use crate::named::{joined_named, lemma_named};
use crate::steps::step_in;
use crate::words::{cut_word, is_word};
use std::alloc::AllocError;

/// How many steps a line may have.
pub const MAX_RUN: usize = 1000;

/// A word that several steps can follow.
#[derive(Clone, Copy)]
pub enum RunWord {
    /// `line`, before rows and columns.
    Lines,
    /// `use`, before lemmas.
    Uses,
    /// `drop`, before lemmas.
    Forgets,
}

// The word that several steps can follow.
fn run_word(word: &[u8]) -> Option<RunWord>
    ensures { result ≡ run_word word.now }
{
    if is_word(word, b"line") {
        Some(RunWord::Lines)
    } else if is_word(word, b"use") {
        Some(RunWord::Uses)
    } else if is_word(word, b"drop") {
        Some(RunWord::Forgets)
    } else {
        None
    }
}

// The step that a word names behind one of these.
fn step_named(kind: RunWord, word: &[u8]) -> Option<CertLine>
    ensures value { result ≡ step_named kind word.now }
    ensures of_lemmas { IfSome result IsOfLemmas }
{
    match kind {
        RunWord::Lines => joined_named(word).map(CertLine::Line),
        RunWord::Uses => lemma_named(word).map(CertLine::Use),
        RunWord::Forgets => lemma_named(word).map(CertLine::Forget),
    }
}

#[tactic(auto, using(crate::proofs::RunLemmas::beginnings))]
// The word that several steps can follow, and these, if the line has them.
fn run_in(line: &[u8]) -> Option<(RunWord, &[u8])>
    ensures { IsRunBegun line.now result }
{
    let (word, behind) = cut_word(line)?;
    let kind = run_word(word)?;
    Some((kind, behind))
}

#[tactic(auto, using(crate::proofs::RunLemmas::each_read))]
// Appends the steps that words name, and says how many they are. None if one names none, or if there are too many.
fn push_each(
    kind: RunWord,
    words: &[u8],
    steps: &mut Vec<CertLine>,
) -> Result<Option<u16>, AllocError>
    ensures { IfOk result (IsPushed LemmaRuns (run_named kind (words_of words.now))
        steps.old.items steps.new.items) }
{
    let mut rest = words;
    let mut count = 0;
    while let Some((word, behind)) = cut_word(rest) {
        let Some(step) = step_named(kind, word) else {
            return Ok(None);
        };
        steps.push(step)?;
        count += 1;
        rest = behind;
    }
    let Some(step) = step_named(kind, rest) else {
        return Ok(None);
    };
    steps.push(step)?;
    if count < MAX_RUN {
        Ok(Some(count as u16 + 1))
    } else {
        Ok(None)
    }
}

// Appends the step of a line that has one, and says that it is one. None if the line has none.
fn push_step(form: Form, line: &[u8], steps: &mut Vec<CertLine>) -> Result<Option<u16>, AllocError>
    ensures { IfOk result (IsPushed form (option_map one (step_of form line.now))
        steps.old.items steps.new.items) }
{
    let Some(step) = step_in(form, line) else {
        return Ok(None);
    };
    steps.push(step)?;
    Ok(Some(1))
}

// Appends the steps of a line, and says how many they are. None if the line is none of the form's.
pub(crate) fn push_steps(
    form: Form,
    line: &[u8],
    steps: &mut Vec<CertLine>,
) -> Result<Option<u16>, AllocError>
    ensures { IfOk result (IsPushed form (steps_of form line.now) steps.old.items steps.new.items) }
{
    match form {
        Form::LemmaRuns => match run_in(line) {
            Some((kind, words)) => push_each(kind, words, steps),
            None => push_step(form, line, steps),
        },
        _ => push_step(form, line, steps),
    }
}
