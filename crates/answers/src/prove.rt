//! The certificate that is made of a picture.

ghost use Rattle.std.specs.Prelude.{◌≡◌, [], false, length, option_map, IfOk, OnOk};
ghost use Rattle.answers.specs.Prove.{AnswersShown, IsCertShown, IsProveOf, IsShownFor, Proves, WritesProof, given_cells};
ghost use Rattle.cert_text.specs.WrittenCert.{cert_text};
ghost use Rattle.text_check.specs.Givens.{AreInside, IsRead, IsSetOf};
ghost use Rattle.picture.specs.Rows.{width_of};

use cert_text::{Cert, Form, write_cert};
use certificate::{Reach, find_proof};
use lemma_proof::{Made, with_single_steps};
use line_settle::MaskEngine;
use picture::{CellSet, MAX_SIDE, Picture, send};
use ppm_text::read_ppm;
use program_options::{ProgramFault, ProveOptions};
use std::alloc::{AllocError, Global};
use std::io::Write;
use text_check::{GivensFault, published_cells};

/// Makes a certificate of the picture of a P3 text, and writes its text. Its givens are exactly the cells that the text of
/// givens names, or none without one. If it has the form of a certificate with lemmas, that is the one that the options name;
/// else it is a tree.
///
/// Where the answer is Ok, what was written is read as a certificate that proves the picture, so it is the only one with its
/// clues and its colours in the givens. It is `NoCertificate` where a word was written: `ambiguous`, since another picture was
/// found, or `undecided`, since neither was found within the bounds of the search; never this if the options ask for a complete
/// search. Otherwise the answer is the error of the picture's reader or else that of the givens, or out of memory. After a write
/// error a prefix of the text was written, and after any other error nothing.
pub fn run_prove<W: Write>(
    alloc: Global,
    file: &[u8],
    givens: Option<&[u8]>,
    options: ProveOptions,
    writer: &mut W,
) -> Result<(), ProgramFault>
    ensures { WritesProof (W.contents writer.old) (W.contents writer.new) result
        (IsProveOf file.now (option_map (λ text. text.now) givens.entry) options) }
{
    let (text, proves) = shown_for(alloc, file, givens, options)?;
    send(&text, writer)?;
    if proves {
        Ok(())
    } else {
        Err(ProgramFault::NoCertificate)
    }
}

// What is shown for the picture of a text, and whether that is a certificate.
fn shown_for(
    alloc: Global,
    file: &[u8],
    givens: Option<&[u8]>,
    options: ProveOptions,
) -> Result<(Vec<u8>, bool), ProgramFault>
    ensures { AnswersShown
        (IsProveOf file.now (option_map (λ text. text.now) givens.entry) options) result }
{
    let document = read_ppm(alloc, file, options.background)?;
    let givens = given_set(givens, &document.picture)?;
    Ok(made_for(alloc, &document.picture, &givens, options)?)
}

// The cells that a text of givens names, or none without one.
fn given_set(givens: Option<&[u8]>, picture: &Picture) -> Result<CellSet, GivensFault>
    ensures read { IsRead (given_cells picture.now (option_map (λ text. text.now) givens.entry))
        result }
    ensures inside { IfOk result (AreInside (length picture.now) (width_of picture.now)) }
{
    match givens {
        Some(text) => published_cells(text, picture.height(), picture.width()),
        None => Ok(CellSet::empty()),
    }
}

// What is shown for a picture with these givens, and whether that is a certificate.
fn made_for(
    alloc: Global,
    picture: &Picture,
    givens: &CellSet,
    options: ProveOptions,
) -> Result<(Vec<u8>, bool), AllocError>
    requires { AreInside (length picture.now) (width_of picture.now) givens.now }
    ensures { IfOk result (λ shown. (cells : _) → IsSetOf givens.now cells
        → Proves picture.now cells options shown.0.items shown.1) }
{
    let _ = picture.height();
    let mut engine = MaskEngine::make(alloc, MAX_SIDE)?;
    let reach = reach_for(options.complete);
    let made = find_proof(alloc, &mut engine, picture, givens, reach)?;
    shown_made(alloc, &made, options.single)
}

// How far the search goes.
fn reach_for(complete: bool) -> Reach
    ensures { result ≡ Reach.Bounded → complete ≡ false }
{
    if complete {
        Reach::Complete
    } else {
        Reach::Bounded
    }
}

// What is shown for what was made, and whether that is a certificate.
fn shown_made(alloc: Global, made: &Made, single: bool) -> Result<(Vec<u8>, bool), AllocError>
    ensures { IfOk result (λ shown. IsShownFor single made.now shown.0.items shown.1) }
{
    let mut text = Vec::new(alloc);
    match made {
        Made::Proof(cert) => {
            push_cert(alloc, &mut text, cert, single)?;
            Ok((text, true))
        }
        Made::Other(_) => {
            text.extend_from_slice(b"ambiguous\n")?;
            Ok((text, false))
        }
        Made::Undecided => {
            text.extend_from_slice(b"undecided\n")?;
            Ok((text, false))
        }
    }
}

#[tactic(auto, using(crate::proofs::ProveLemmas::forms_shown))]
// Appends the text of a certificate to an empty one: of one with lemmas, in one of the two forms.
fn push_cert(alloc: Global, text: &mut Vec<u8>, cert: &Cert, single: bool) -> Result<(), AllocError>
    requires { text.old.items ≡ [] }
    ensures { OnOk result (IsCertShown single cert.now text.new.items) }
{
    if single && cert.form() == Form::LemmaRuns {
        let cert = with_single_steps(alloc, cert)?;
        return write_text(text, &cert);
    }
    write_text(text, cert)
}

// Appends the text of a certificate to an empty one.
fn write_text(text: &mut Vec<u8>, cert: &Cert) -> Result<(), AllocError>
    requires { text.old.items ≡ [] }
    ensures { OnOk result (text.new.items ≡ cert_text cert.now) }
{
    write_cert(cert, text).map_err(|_| AllocError)
}
