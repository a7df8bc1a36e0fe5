//! A proof that a picture is the only one with its clues and givens, or another picture with them.

ghost use Rattle.std.specs.Prelude.{◌≡◌, ◌≤◌, ◌<◌, ℕ, length, IfOk, IsTrue};
ghost use Rattle.picture.specs.CellSet.{HasCell};
ghost use Rattle.picture.specs.Document.{AreInside};
ghost use Rattle.picture.specs.Rows.{cell_at, width_of};
ghost use Rattle.clues.specs.ClueBook.{clues_of};
ghost use Rattle.clues.specs.Solution.{IsOther};
ghost use Rattle.lemma_proof.specs.Making.{AgreesIn, IsMadeOf, Makes};
ghost use Rattle.lemma_proof.specs.Naming.{NamesGivens};

use crate::naming::given_cells;
use crate::turning::Turn;
use cert_check::check_cert;
use cert_text::{Cert, CertFault, Form, runs_of};
use clues::ClueBook;
use lemma_search::{Effort, Found, learn};
use line_facts::LineEngine;
use picture::{CellSet, Picture};
use std::alloc::{AllocError, Global};

/// What is made: a certificate, so that there is no other picture; or another picture; or neither within the bounds.
#[derive(Drop)]
pub enum Made {
    Proof(Cert),
    Other(Picture),
    Undecided,
}

/// The bounds of a search for a proof of a whole picture.
pub const EFFORT: Effort = Effort {
    conflicts: 250_000,
    literals: 10_000_000,
    aims: false,
};

/// Makes a certificate with lemmas and exactly these givens: `check_cert` accepts it, so no other picture has the clues and, in the
/// givens, the colours. Or it finds such a picture, or is undecided: what it finds within the bounds of its search is not
/// promised. It is sought in one of the ways in which the picture can lie, the same in all of them. No line of the picture may be
/// longer than the engine takes. The engine's calls do not fall.
pub fn make_proof<E: LineEngine>(
    alloc: Global,
    engine: &mut E,
    picture: &Picture,
    givens: &CellSet,
    effort: Effort,
) -> Result<Made, AllocError>
    requires inside { AreInside givens.now picture.now }
    requires wide { width_of picture.now ≤ E.longest engine.old }
    requires tall { length picture.now ≤ E.longest engine.old }
    ensures makes { IfOk result (Makes picture.now givens.now) }
    ensures calls { E.calls engine.old ≤ E.calls engine.new }
    ensures same_longest { E.longest engine.new ≡ E.longest engine.old }
{
    let turn = Turn::shared(picture);
    let laid = turn.laid(alloc, picture)?;
    let clues = ClueBook::of(alloc, &laid)?;
    match learn(
        alloc,
        engine,
        &clues,
        &turn.laid_cells(givens),
        &laid,
        effort,
    )? {
        Found::Proof(mut steps) => {
            turn.raise(&mut steps);
            let cells = given_cells(alloc, picture, givens)?;
            let runs = runs_of(alloc, &steps)?;
            let cert = Cert::new(Form::LemmaRuns, cells, steps, runs);
            check_made(alloc, engine, picture, givens, cert)
        }
        Found::Other(other) => {
            let other = turn.back().laid(alloc, &other)?;
            let clues = ClueBook::of(alloc, picture)?;
            Ok(compared(&clues, givens, picture, other))
        }
        Found::Nothing => Ok(Made::Undecided),
    }
}

/// Gives a certificate with exactly these givens if it proves the picture and can be written, and else `Undecided`. No line of
/// the picture may be longer than the engine takes. The engine's calls do not fall.
pub fn check_made<E: LineEngine>(
    alloc: Global,
    engine: &mut E,
    picture: &Picture,
    givens: &CellSet,
    cert: Cert,
) -> Result<Made, AllocError>
    requires names { NamesGivens picture.now givens.now cert.givens }
    requires form { cert.form ≡ Form.LemmaRuns }
    requires wide { width_of picture.now ≤ E.longest engine.old }
    requires tall { length picture.now ≤ E.longest engine.old }
    ensures makes { IfOk result (Makes picture.now givens.now) }
    ensures same { IfOk result (IsMadeOf picture.now cert) }
    ensures calls { E.calls engine.old ≤ E.calls engine.new }
    ensures same_longest { E.longest engine.new ≡ E.longest engine.old }
{
    let _ = givens.len();
    if !cert.is_writable() {
        return Ok(Made::Undecided);
    }
    match check_cert(alloc, engine, picture, &cert) {
        Ok(()) => Ok(Made::Proof(cert)),
        Err(CertFault::Memory) => Err(AllocError),
        Err(_) => Ok(Made::Undecided),
    }
}

// Gives a picture that was found if it is another one, and else `Undecided`.
fn compared(clues: &ClueBook, givens: &CellSet, picture: &Picture, other: Picture) -> Made
    requires inside { AreInside givens.now picture.now }
    requires clues { clues.now ≡ clues_of picture.now }
    ensures { Makes picture.now givens.now result }
{
    if is_other(clues, givens, picture, &other) {
        Made::Other(other)
    } else {
        Made::Undecided
    }
}

// Whether `other` has the clues and, in the givens, the picture's colours, and differs from it.
fn is_other(clues: &ClueBook, givens: &CellSet, picture: &Picture, other: &Picture) -> bool
    requires inside { AreInside givens.now picture.now }
    requires clues { clues.now ≡ clues_of picture.now }
    ensures { IsTrue result
        → IsOther (clues_of picture.now) (HasCell givens.now) picture.now other.now }
{
    if !clues.has_clues(other) || other.same(picture) {
        return false;
    }
    agrees_in(givens, picture, other)
}

// Whether two pictures have the same size, and the same colours in some cells.
fn agrees_in(cells: &CellSet, picture: &Picture, other: &Picture) -> bool
    requires { AreInside cells.now picture.now }
    ensures { IsTrue result → AgreesIn cells.now picture.now other.now (length picture.now) }
{
    if other.height() != picture.height() || other.width() != picture.width() {
        return false;
    }
    for row in 0..picture.height() {
        if !agrees_in_row(cells, picture, other, row) {
            return false;
        }
    }
    true
}

// Whether two pictures of one size have the same colours in some cells of a row.
fn agrees_in_row(cells: &CellSet, picture: &Picture, other: &Picture, row: u8) -> bool
    requires inside { AreInside cells.now picture.now }
    requires in_rows { row < length picture.now }
    requires height { length other.now ≡ length picture.now }
    requires width { width_of other.now ≡ width_of picture.now }
    ensures { IsTrue result → (col : ℕ) → HasCell cells.now row col
        → cell_at other.now row col ≡ cell_at picture.now row col }
{
    for col in 0..picture.width() {
        if cells.has(row, col) && other.cell(row, col) != picture.cell(row, col) {
            return false;
        }
    }
    true
}
