//! The lines below the givens that have one step each.

ghost use Rattle.std.specs.Prelude.{◌≡◌, IfSome};
ghost use Rattle.cert_text.specs.Cert.{IsOfForm, IsOfLemmas, IsOfTree};
ghost use Rattle.cert_text.specs.Steps.{dead_named, four_words, lemma_line, one_word, step_of, three_words, tree_line, two_words};

use crate::cert_line::CertLine;
use crate::form::Form;
use crate::named::{cell_named, lemma_named, line_named, literal_named};
use crate::words::{cut_word, is_word, three_words as three_words_of};

#[tactic(auto, unfolding(crate::specs::Steps::tree_line))]
// The step of a line of a tree.
fn tree_line(line: &[u8]) -> Option<CertLine>
    ensures value { result ≡ tree_line line.now }
    ensures of_tree { IfSome result IsOfTree }
{
    if is_word(line, b"done") {
        return Some(CertLine::Done);
    }
    let (word, first, second) = three_words_of(line)?;
    match word {
        b"line" => line_named(first, second).map(CertLine::Line),
        b"dead" => line_named(first, second).map(CertLine::Dead),
        b"split" => cell_named(first, second).map(CertLine::Split),
        _ => None,
    }
}

// A line of one word.
fn one_word(word: &[u8]) -> Option<CertLine>
    ensures value { result ≡ one_word word.now }
    ensures of_lemmas { IfSome result IsOfLemmas }
{
    if is_word(word, b"lemma") {
        Some(CertLine::Lemma)
    } else if is_word(word, b"done") {
        Some(CertLine::Done)
    } else {
        None
    }
}

// A line of two words.
fn two_words(word: &[u8], number: &[u8]) -> Option<CertLine>
    ensures value { result ≡ two_words word.now number.now }
    ensures of_lemmas { IfSome result IsOfLemmas }
{
    if is_word(word, b"use") {
        lemma_named(number).map(CertLine::Use)
    } else if is_word(word, b"drop") {
        lemma_named(number).map(CertLine::Forget)
    } else {
        None
    }
}

// What is dead: a lemma, or a line of the grid.
fn dead_named(first: &[u8], second: &[u8]) -> Option<CertLine>
    ensures value { result ≡ dead_named first.now second.now }
    ensures of_lemmas { IfSome result IsOfLemmas }
{
    if is_word(first, b"l") {
        lemma_named(second).map(CertLine::Broken)
    } else {
        line_named(first, second).map(CertLine::Dead)
    }
}

// A line of three words.
fn three_words(word: &[u8], first: &[u8], second: &[u8]) -> Option<CertLine>
    ensures value { result ≡ three_words word.now first.now second.now }
    ensures of_lemmas { IfSome result IsOfLemmas }
{
    if is_word(word, b"line") {
        line_named(first, second).map(CertLine::Line)
    } else if is_word(word, b"dead") {
        dead_named(first, second)
    } else {
        None
    }
}

// A line of four words.
fn four_words(word: &[u8], row: &[u8], col: &[u8], letters: &[u8]) -> Option<CertLine>
    ensures value { result ≡ four_words word.now row.now col.now letters.now }
    ensures of_lemmas { IfSome result IsOfLemmas }
{
    if is_word(word, b"part") {
        literal_named(row, col, letters).map(CertLine::Part)
    } else if is_word(word, b"deny") {
        literal_named(row, col, letters).map(CertLine::Deny)
    } else {
        None
    }
}

#[tactic(auto, using(crate::proofs::StepLemmas::by_count))]
// The step of a line of a certificate with lemmas.
fn lemma_line(line: &[u8]) -> Option<CertLine>
    ensures value { result ≡ lemma_line line.now }
    ensures of_lemmas { IfSome result IsOfLemmas }
{
    let Some((word, behind)) = cut_word(line) else {
        return one_word(line);
    };
    let Some((first, behind)) = cut_word(behind) else {
        return two_words(word, behind);
    };
    let Some((second, behind)) = cut_word(behind) else {
        return three_words(word, first, behind);
    };
    match cut_word(behind) {
        None => four_words(word, first, second, behind),
        Some(_) => None,
    }
}

// The step of a line that has one.
pub(crate) fn step_in(form: Form, line: &[u8]) -> Option<CertLine>
    ensures value { result ≡ step_of form line.now }
    ensures of_form { IfSome result (IsOfForm form) }
{
    match form {
        Form::Tree | Form::GivenTree => tree_line(line),
        Form::Lemmas | Form::LemmaRuns => lemma_line(line),
    }
}
