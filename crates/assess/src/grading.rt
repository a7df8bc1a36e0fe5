//! The grade of a puzzle with one solution.

ghost use Rattle.std.specs.Prelude.{◌≡◌, ◌⊎◌, ◌+◌, ◌≤◌, None, length, IfNone, IfOk, IfSome};
ghost use Rattle.assess.specs.Calls.{most_in_trees, most_to_grade};
ghost use Rattle.assess.specs.Grades.{IsBeyond, IsGradeBy, IsGraded, IsGradedIf, IsIfShort, IsShortCert};
ghost use Rattle.certificate.specs.MadeCert.{HasOther};

use crate::assessment::Verdict;
use crate::guessing::guesses_of;
use cert_text::Cert;
use certificate::make_small_cert;
use grade::{Figures, Grade};
use line_facts::LineEngine;
use picture::{Document, MAX_SIDE};
use std::alloc::{AllocError, Global};

/// How many lines each of the two trees may evaluate from which a grade is taken.
pub const GRADE_EVALUATIONS: u64 = 100_000;

/// How many lines the tree may have from which a grade is taken.
pub const GRADE_LINES: usize = 100_000;

/// A grade, and the certificate that its splits and their depth were taken from.
#[derive(Drop)]
pub(crate) struct Graded {
    pub grade: Option<Grade>,
    pub cert: Option<Cert>,
}

/// The grade of a puzzle with these figures, if it is unique.
pub(crate) fn grade_if<E: LineEngine>(
    alloc: Global,
    engine: &mut E,
    document: &Document,
    figures: Figures,
    verdict: &Verdict,
) -> Result<Graded, AllocError>
    requires { MAX_SIDE ≤ E.longest engine.old }
    ensures graded { IfOk result (λ graded. IsGradedIf document.now.picture document.now.givens
        figures verdict.now graded.cert graded.grade) }
    ensures unknown { IfOk result (λ graded.
        verdict.now ≡ Verdict.Unique → graded.grade ≡ None
        → HasOther document.now.picture document.now.givens
        ⊎ IsBeyond document.now.picture document.now.givens (E.calls engine.old)
        (E.calls engine.new)) }
    ensures few { E.calls engine.new ≤ E.calls engine.old + most_to_grade document.now.picture }
    ensures calls { E.calls engine.old ≤ E.calls engine.new }
    ensures same_longest { E.longest engine.new ≡ E.longest engine.old }
{
    match verdict {
        Verdict::Unique => grade(alloc, engine, document, figures),
        Verdict::Ambiguous(_) => Ok(no_grade()),
        Verdict::Undecided => Ok(no_grade()),
    }
}

// No grade.
fn no_grade() -> Graded
    ensures grade { result.grade ≡ None }
    ensures cert { result.cert ≡ None }
{
    Graded {
        grade: None,
        cert: None,
    }
}

/// The grade of a unique puzzle with these figures: without a certificate where no cell is open, else by one that is made within
/// the bounds. There is no grade only if it is beyond these.
pub(crate) fn grade<E: LineEngine>(
    alloc: Global,
    engine: &mut E,
    document: &Document,
    figures: Figures,
) -> Result<Graded, AllocError>
    requires { MAX_SIDE ≤ E.longest engine.old }
    ensures graded { IfOk result (λ graded. IsGraded document.now.picture document.now.givens
        figures graded.cert graded.grade) }
    ensures unknown { IfOk result (λ graded. graded.grade ≡ None
        → HasOther document.now.picture document.now.givens
        ⊎ IsBeyond document.now.picture document.now.givens (E.calls engine.old)
        (E.calls engine.new)) }
    ensures few { E.calls engine.new ≤ E.calls engine.old + most_to_grade document.now.picture }
    ensures calls { E.calls engine.old ≤ E.calls engine.new }
    ensures same_longest { E.longest engine.new ≡ E.longest engine.old }
{
    let _ = (engine.calls(), document.picture.height());
    if figures.open == 0 {
        return Ok(Graded {
            grade: Some(Grade::of(figures, 0, 0)),
            cert: None,
        });
    }
    let Some(cert) = short_cert(alloc, engine, document)? else {
        return Ok(no_grade());
    };
    let grade = grade_by(alloc, engine, document, figures, &cert)?;
    Ok(Graded {
        grade: Some(grade),
        cert: Some(cert),
    })
}

// A certificate with exactly the givens, if one comes within the bounds. None only if none does, or if there is another picture.
fn short_cert<E: LineEngine>(
    alloc: Global,
    engine: &mut E,
    document: &Document,
) -> Result<Option<Cert>, AllocError>
    requires { MAX_SIDE ≤ E.longest engine.old }
    ensures makes { IfOk result (λ found. IfSome found
        (IsShortCert document.now.picture document.now.givens)) }
    ensures none { IfOk result (λ found. IfNone found
        (HasOther document.now.picture document.now.givens
        ⊎ IsBeyond document.now.picture document.now.givens (E.calls engine.old)
        (E.calls engine.new))) }
    ensures few { E.calls engine.new ≤ E.calls engine.old + most_in_trees document.now.picture }
    ensures calls { E.calls engine.old ≤ E.calls engine.new }
    ensures same_longest { E.longest engine.new ≡ E.longest engine.old }
{
    let _ = (engine.calls(), document.picture.height());
    let (picture, givens) = (&document.picture, &document.givens);
    let found = make_small_cert(alloc, engine, picture, givens, GRADE_EVALUATIONS)?;
    Ok(if_short(found))
}

// The certificate, unless it has too many lines.
fn if_short(found: Option<Cert>) -> Option<Cert>
    ensures { IsIfShort found result }
{
    match found {
        Some(cert) if cert.lines().len() <= GRADE_LINES => Some(cert),
        _ => None,
    }
}

// The grade by a certificate of a puzzle with these figures. Where no cell is open, there are no splits.
fn grade_by<E: LineEngine>(
    alloc: Global,
    engine: &mut E,
    document: &Document,
    figures: Figures,
    cert: &Cert,
) -> Result<Grade, AllocError>
    requires { MAX_SIDE ≤ E.longest engine.old }
    ensures grade { IfOk result (IsGradeBy document.now.picture cert.now figures) }
    ensures few { E.calls engine.new ≤ E.calls engine.old + length cert.now.lines }
    ensures calls { E.calls engine.old ≤ E.calls engine.new }
    ensures same_longest { E.longest engine.new ≡ E.longest engine.old }
{
    let _ = (engine.calls(), document.picture.height());
    if figures.open == 0 {
        return Ok(Grade::of(figures, 0, 0));
    }
    let guesses = guesses_of(alloc, engine, &document.picture, cert)?;
    Ok(Grade::of(figures, guesses.splits, guesses.depth))
}
