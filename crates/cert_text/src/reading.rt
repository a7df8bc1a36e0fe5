//! The reader of certificates.

ghost use Rattle.std.specs.Prelude.{◌≡◌, ◌+◌, ◌/◌, ◌++◌, ◌^◌, ◌<◌, ◌≤◌, length, IfOk};
ghost use Rattle.picture.specs.Readers.{Gives};
ghost use Rattle.cert_text.specs.Cert.{AreOfForm, AreOrdered, CanHaveGivens, HasRuns, IsCert, rank};
ghost use Rattle.cert_text.specs.Reading.{cert_of, form_of, givens_of, length_of, lines_seen, steps_below};
ghost use Rattle.cert_text.specs.Text.{given_lines, givens_seen, lines_of};

use crate::cert::Cert;
use crate::cert_line::{CellNumber, CertLine};
use crate::fault::CertFault;
use crate::form::Form;
use crate::named::given_in;
use crate::runs::push_steps;
use crate::words::{first_line, is_word};
use std::alloc::{AllocError, Global};

// The number of the line below the first.
const SECOND_LINE: usize = 2;

// The form that the first line says.
fn form_of(line: &[u8]) -> Option<Form>
    ensures { result ≡ form_of line.now }
{
    if is_word(line, b"nonocert 1") {
        Some(Form::Tree)
    } else if is_word(line, b"nonocert 2") {
        Some(Form::GivenTree)
    } else if is_word(line, b"nonolemma 1") {
        Some(Form::Lemmas)
    } else if is_word(line, b"nonolemma 2") {
        Some(Form::LemmaRuns)
    } else {
        None
    }
}

#[tactic(auto, using(crate::proofs::ReadLemmas::given_reading))]
/// Reads the givens at the beginning of a text whose first line was cut off. Returns them and the text below them.
pub fn read_givens(alloc: Global, text: &[u8]) -> Result<(Vec<CellNumber>, &[u8]), CertFault>
    requires few { SECOND_LINE + length text.now < 2 ^ 64 }
    ensures value { Gives CertFault.Memory givens_seen result
        (given_lines 2 0 (lines_of text.now)) }
    ensures ordered { IfOk result (λ read. AreOrdered 0 read.0.items) }
    ensures rest { IfOk result (λ read. length read.1.now ≤ length text.now) }
{
    let mut givens = Vec::new(alloc);
    let mut number = SECOND_LINE;
    let mut least = 0;
    let mut rest = text;
    while let Some((line, behind)) = first_line(rest) {
        let Some(cell) = given_in(line) else {
            return Ok((givens, rest));
        };
        let rank = u32::from(cell.row) * 1000 + u32::from(cell.col);
        if rank < least {
            return Err(CertFault::BadLine(number));
        }
        givens.push(cell)?;
        least = rank + 1;
        number += 1;
        rest = behind;
    }
    Ok((givens, rest))
}

// The givens, and the text below them.
fn givens_of(alloc: Global, form: Form, text: &[u8]) -> Result<(Vec<CellNumber>, &[u8]), CertFault>
    requires few { SECOND_LINE + length text.now < 2 ^ 64 }
    ensures value { Gives CertFault.Memory givens_seen result (givens_of form (lines_of text.now)) }
    ensures givens { IfOk result (λ read. CanHaveGivens form read.0.items) }
    ensures rest { IfOk result (λ read. length read.1.now ≤ length text.now) }
{
    match form {
        Form::Tree => Ok((Vec::new(alloc), text)),
        _ => read_givens(alloc, text),
    }
}

// The fewest bytes of a line that has one step, with its line feed, and of a step where a line may have several.
const SHORTEST_LINE: usize = 5;

const SHORTEST_STEP: usize = 2;

// Room for the steps of a text. Where a line may have several, each stands behind a line feed or a space.
fn room_for(form: Form, text: &[u8]) -> usize
    ensures { result ≤ length text.now / SHORTEST_STEP + 1 }
{
    match form {
        Form::LemmaRuns => {
            let cuts = text.iter().filter(|b| matches!(**b, b'\n' | b' '));
            (cuts.count() + 1).min(text.len() / SHORTEST_STEP)
        }
        _ => text.len() / SHORTEST_LINE + 1,
    }
}

// Notes how many steps a line has, where it may have several.
fn push_length(form: Form, length: u16, runs: &mut Vec<u16>) -> Result<(), AllocError>
    ensures { IfOk result (λ _. runs.new.items ≡ runs.old.items ++ length_of form length) }
{
    if matches!(form, Form::LemmaRuns) {
        runs.push(length)?;
    }
    Ok(())
}

#[tactic(auto, using(crate::proofs::ReadLemmas::line_reading))]
// The steps of lines that are numbered from `first`, and how many each line has, where it may have several.
fn read_lines(
    alloc: Global,
    form: Form,
    text: &[u8],
    first: usize,
) -> Result<(Vec<CertLine>, Vec<u16>), CertFault>
    requires few { first + length text.now < 2 ^ 64 }
    ensures value { Gives CertFault.Memory lines_seen result
        (steps_below form first (lines_of text.now)) }
    ensures of_form { IfOk result (λ read. AreOfForm form read.0.items) }
    ensures runs { IfOk result (λ read. HasRuns form read.1.items read.0.items) }
{
    let mut steps = Vec::with_capacity(alloc, room_for(form, text))?;
    let mut runs = Vec::new(alloc);
    let mut number = first;
    let mut rest = text;
    while let Some((line, behind)) = first_line(rest) {
        let Some(length) = push_steps(form, line, &mut steps)? else {
            return Err(CertFault::BadLine(number));
        };
        push_length(form, length, &mut runs)?;
        number += 1;
        rest = behind;
    }
    Ok((steps, runs))
}

/// Reads a certificate.
///
/// Lines end with a line feed, which the last may lack. The first line says the form: `nonocert 1`, `nonocert 2`,
/// `nonolemma 1` or `nonolemma 2`, else the error is `NotCert` at line 1. In all but `nonocert 1` lines `given R C` may
/// follow, each after the one before in the order of rows. Each further line is one of the form's, as
/// `docs/FILE-FORMATS.md` says, with single spaces and numbers without leading zeros. Any other line is `BadLine`.
/// Whether a picture has the lines and cells, and whether there are such lemmas, is not checked. Out of memory is
/// answered where it occurs, before any later error.
pub fn read_cert(alloc: Global, bytes: &[u8]) -> Result<Cert, CertFault>
    ensures value { Gives CertFault.Memory (λ cert. cert) result (cert_of bytes.now) }
    ensures cert { IfOk result IsCert }
{
    let (first, rest) = first_line(bytes).ok_or(CertFault::NotCert(1))?;
    let form = form_of(first).ok_or(CertFault::NotCert(1))?;
    let (givens, rest) = givens_of(alloc, form, rest)?;
    let (lines, runs) = read_lines(alloc, form, rest, SECOND_LINE + givens.len())?;
    Ok(Cert::new(form, givens, lines, runs))
}
