//! The check of a picture's certificate, which may have any givens or only those that are published.

ghost use Rattle.std.specs.Prelude.{◌≡◌, ◌++◌, IfErr, IfOk, OnOk, option_map, unwrap_or};
ghost use Rattle.cert_check.specs.FirstFault.{AnswersFirst};
ghost use Rattle.cert_check.specs.LemmaProof.{IsLemmaProof};
ghost use Rattle.cert_check.specs.Puzzle.{IsUnique};
ghost use Rattle.cert_check.specs.Tree.{IsProof};
ghost use Rattle.text_check.specs.declared.fault.CheckFault.TheVariants.{Memory};
ghost use Rattle.text_check.specs.Check.{Answers, AreAmong, AreGivensOf, FirstFaultWith, IsCheckOf, IsLemmaProofOf, IsOnlyPicture, IsProofOf, IsPublishedRead, IsSetOfThese, accepted_text, givens_count_text, givens_text, published_in};

use crate::fault::CheckFault;
use crate::givens::published_cells;
use crate::givens_fault::GivensFault;
use cert_check::{check_cert, check_published};
use cert_text::{CellNumber, Cert, CertFault, read_cert, send_givens};
use itoa::Buffer;
use line_settle::MaskEngine;
use picture::{CellSet, MAX_SIDE, Picture, Rgb};
use ppm_text::read_ppm;
use std::alloc::{AllocError, Global};

/// What is said of a certificate that is accepted: the line `certificate accepted`, with the number of givens where there are some;
/// and a line `given R C` for each of its givens, in its order.
#[derive(Drop)]
pub struct Accepted {
    pub line: Vec<u8>,
    pub givens: Vec<u8>,
}

/// Checks a certificate of the picture of a P3 text, whose background is the one that is passed, or else white. `givens` is the text
/// of the file of the givens that are published; without it, the certificate may have any.
///
/// The error is that of the first that refuses: the reader of the picture, of the givens, of the certificate, the checker. Where
/// none does, it is `UnpublishedGiven` for the certificate's first given that is not published.
pub fn check_texts(
    alloc: Global,
    file: &[u8],
    cert: &[u8],
    givens: Option<&[u8]>,
    background: Option<Rgb>,
) -> Result<Accepted, CheckFault>
    ensures shown { Answers (IsCheckOf file.now background
        (option_map (λ text. text.now) givens.entry) cert.now) result }
    ensures givens { IfOk result (λ accepted. AreGivensOf cert.now accepted.givens.items) }
    ensures only { IsProofOf file.now background (option_map (λ text. text.now) givens.entry)
        cert.now → IfErr result (λ e. e ≡ Memory) }
    ensures only_lemmas { IsLemmaProofOf file.now background
        (option_map (λ text. text.now) givens.entry) cert.now
        → IfErr result (λ e. e ≡ Memory) }
    ensures unique { OnOk result (IsOnlyPicture file.now background
        (option_map (λ text. text.now) givens.entry) cert.now) }
{
    let document = read_ppm(alloc, file, background)?;
    let published = read_published(givens, &document.picture)?;
    let certificate = read_cert(alloc, cert)?;
    check(alloc, &document.picture, &certificate, &published)?;
    Ok(say_accepted(alloc, &certificate)?)
}

// The set of the cells that are published, if their text is passed.
fn read_published(givens: Option<&[u8]>, picture: &Picture) -> Result<Option<CellSet>, GivensFault>
    ensures { IsPublishedRead
        (published_in picture.now (option_map (λ text. text.now) givens.entry)) result }
{
    match givens {
        None => Ok(None),
        Some(text) => Ok(Some(published_cells(text, picture.height(), picture.width())?)),
    }
}

// Checks a certificate of a picture, by the cells that are published.
fn check(
    alloc: Global,
    picture: &Picture,
    cert: &Cert,
    published: &Option<CellSet>,
) -> Result<(), CertFault>
    ensures first { (cells : _) → IsSetOfThese published.now cells
        → AnswersFirst (FirstFaultWith picture.now cells cert.now) result }
    ensures only { (cells : _) → IsSetOfThese published.now cells → IsProof picture.now cert.now
        → AreAmong cells cert.now.givens → IfErr result (λ e. e ≡ CertFault.Memory) }
    ensures only_lemmas { (cells : _) → IsSetOfThese published.now cells
        → IsLemmaProof picture.now cert.now → AreAmong cells cert.now.givens
        → IfErr result (λ e. e ≡ CertFault.Memory) }
    ensures unique { (cells : _) → IsSetOfThese published.now cells
        → OnOk result (IsUnique picture.now (unwrap_or cells cert.now.givens)) }
{
    let _ = picture.height();
    let mut engine = MaskEngine::make(alloc, MAX_SIDE)?;
    match published {
        None => check_cert(alloc, &mut engine, picture, cert),
        Some(published) => check_published(alloc, &mut engine, picture, cert, published),
    }
}

// What is said of a certificate that is accepted.
fn say_accepted(alloc: Global, cert: &Cert) -> Result<Accepted, AllocError>
    ensures line { IfOk result (λ said. said.line.items ≡ accepted_text cert.now.givens) }
    ensures givens { IfOk result (λ said. said.givens.items ≡ givens_text cert.now.givens) }
{
    let named = cert.givens();
    let mut line = Vec::new(alloc);
    line.extend_from_slice(b"certificate accepted")?;
    push_count(&mut line, named)?;
    line.push(b'\n')?;
    let mut givens = Vec::new(alloc);
    send_givens(named, &mut givens).map_err(|_| AllocError)?;
    Ok(Accepted { line, givens })
}

// Appends how many cells are given, where there are some.
fn push_count(text: &mut Vec<u8>, givens: &[CellNumber]) -> Result<(), AllocError>
    ensures { OnOk result (text.new.items ≡ text.old.items ++ givens_count_text givens.now) }
{
    let count = givens.len();
    if count > 0 {
        text.extend_from_slice(b", givens ")?;
        text.extend_from_slice(Buffer::new().format(count).as_bytes())?;
    }
    Ok(())
}
