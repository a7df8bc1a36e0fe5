//! Certificates for puzzles whose givens are published.

ghost use Rattle.std.specs.Prelude.{◌≡◌, ◌≤◌, ◌<◌, ◌+◌, ◌^◌, ◌↔◌, length, IfErr, OnOk, IsTrue};
ghost use Rattle.std.specs.List.{AllByRecursion};
ghost use Rattle.picture.specs.Rows.{width_of};
ghost use Rattle.cert_check.specs.FirstFault.{AnswersFirst};
ghost use Rattle.cert_check.specs.LemmaProof.{IsLemmaProof};
ghost use Rattle.cert_check.specs.Published.{FirstUnpublished, IsPublished, IsPublishedUnique, PublishedFirstFault};
ghost use Rattle.cert_check.specs.Puzzle.{HasCellNumber};

use crate::checking::check_cert;
use crate::places::cell_in;
use cert_text::{CellNumber, Cert, CertFault};
use line_facts::LineEngine;
use picture::{CellSet, Picture};
use std::alloc::Global;

// The number of the certificate's line with the first given.
const FIRST_LINES: usize = 2;

// Whether a given is one of the cells that are published.
fn is_published(picture: &Picture, published: &CellSet, given: CellNumber) -> bool
    ensures { IsTrue result ↔ IsPublished picture.now published.now given }
{
    let _ = picture.height();
    match cell_in(picture, given) {
        Some(cell) => published.has(cell.row, cell.col),
        None => false,
    }
}

// The first given that is not published is the error.
fn find_unpublished(
    picture: &Picture,
    published: &CellSet,
    givens: &[CellNumber],
) -> Result<(), CertFault>
    requires few { FIRST_LINES + length givens.now < 2 ^ 64 }
    ensures { AnswersFirst (FirstUnpublished picture.now published.now FIRST_LINES givens.now)
        result }
{
    for (i, given) in givens.iter().enumerate() {
        if !is_published(picture, published, *given) {
            return Err(CertFault::UnpublishedGiven(FIRST_LINES + i));
        }
    }
    Ok(())
}

#[tactic(auto, using(crate::proofs::PublishedLemmas::publishing))]
/// Checks a certificate of a picture whose givens are published: whether it proves that no other picture of that size has its
/// clues and its colours in the published cells. No line of the picture may be longer than the engine takes.
///
/// The answer is that of `check_cert`, but where that is Ok and a given is not published it is `UnpublishedGiven` with the
/// line of the first such given.
pub fn check_published<E: LineEngine>(
    alloc: Global,
    engine: &mut E,
    picture: &Picture,
    cert: &Cert,
    published: &CellSet,
) -> Result<(), CertFault>
    requires wide { width_of picture.now ≤ E.longest engine.old }
    requires tall { length picture.now ≤ E.longest engine.old }
    ensures first { AnswersFirst (PublishedFirstFault picture.now published.now cert.now) result }
    ensures proof { OnOk result (IsLemmaProof picture.now cert.now) }
    ensures published { OnOk result
        (AllByRecursion (IsPublished picture.now published.now) cert.now.givens) }
    ensures only { IsLemmaProof picture.now cert.now
        → AllByRecursion (IsPublished picture.now published.now) cert.now.givens
        → IfErr result (λ e. e ≡ CertFault.Memory) }
    ensures unique { OnOk result (IsPublishedUnique picture.now published.now) }
    ensures work { E.calls engine.new ≤ E.calls engine.old + length cert.now.lines }
    ensures idle { (AllByRecursion (HasCellNumber picture.now) cert.now.givens → ⊥)
        → E.calls engine.new ≡ E.calls engine.old }
    ensures calls { E.calls engine.old ≤ E.calls engine.new }
    ensures same_longest { E.longest engine.new ≡ E.longest engine.old }
{
    check_cert(alloc, engine, picture, cert)?;
    find_unpublished(picture, published, cert.givens())
}
