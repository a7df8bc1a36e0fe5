//! A puzzle assessed.

ghost use Rattle.std.specs.Prelude.{◌≡◌, ◌≤◌, None, IfOk, MatchResult};
ghost use Rattle.assess.specs.Assessed.{IsAssessment, IsDescribed, colour_count};
ghost use Rattle.assess.specs.AssessedBy.{IsAssessmentBy, IsRefused};
ghost use Rattle.assess.specs.Calls.{AreFewBy, AreFewInAll};
ghost use Rattle.assess.specs.Grades.{IsBeyond};
ghost use Rattle.assess.specs.Looked.{IsLooked};

use crate::assessment::{Assessment, Verdict};
use crate::grading::{Graded, grade, grade_if};
use crate::judging::judge_map;
use crate::looking::{Looked, look};
use crate::spare::{find_spare, find_spare_if};
use cert_check::check_published;
use cert_text::{Cert, CertFault};
use flaws::{has_colour, is_painted};
use line_facts::LineEngine;
use picture::{Document, MAX_COLOURS, MAX_SIDE, Picture};
use std::alloc::{AllocError, Global};
use trail::Cell;

/// Assesses a document: whether it is fit to be published. The allowance says how many splits the search of a part may make. A
/// unique puzzle has no grade only if this is beyond the bounds of the search for a certificate. The engine must take lines of
/// `MAX_SIDE` cells. If memory runs out, nothing was changed but the engine's count of calls.
pub fn assess<E: LineEngine>(
    alloc: Global,
    engine: &mut E,
    document: &Document,
    allowance: Option<u32>,
) -> Result<Assessment, AllocError>
    requires { MAX_SIDE ≤ E.longest engine.old }
    ensures assessment { IfOk result (IsAssessment document.now allowance) }
    ensures unknown { IfOk result (λ found.
        found.verdict ≡ Verdict.Unique → found.grade ≡ None
        → IsBeyond document.now.picture document.now.givens (E.calls engine.old)
        (E.calls engine.new)) }
    ensures few { AreFewInAll document.now.picture document.now.givens allowance
        (E.calls engine.old) (E.calls engine.new) }
    ensures calls { E.calls engine.old ≤ E.calls engine.new }
    ensures same_longest { E.longest engine.new ≡ E.longest engine.old }
{
    let _ = (engine.calls(), document.picture.height());
    let looked = look(alloc, engine, document)?;
    let verdict = judge_map(
        alloc,
        engine,
        document,
        &looked.book,
        &looked.map,
        allowance,
    )?;
    let graded = grade_if(alloc, engine, document, looked.figures, &verdict)?;
    let spare = find_spare_if(alloc, engine, document, &looked.book, &verdict)?;
    Ok(described(document, looked, verdict, graded, spare))
}

/// Assesses a document by a certificate that proves that it has one solution where its givens are published. The certificate takes
/// the place of the search for another solution, and of nothing else. Where the checker refuses it, its error is the answer. The
/// engine must take lines of `MAX_SIDE` cells.
pub fn assess_by<E: LineEngine>(
    alloc: Global,
    engine: &mut E,
    document: &Document,
    cert: &Cert,
) -> Result<Assessment, CertFault>
    requires { MAX_SIDE ≤ E.longest engine.old }
    ensures assessment { MatchResult
        result
        (IsAssessmentBy document.now cert.now)
        (IsRefused document.now cert.now) }
    ensures unknown { IfOk result (λ found. found.grade ≡ None
        → IsBeyond document.now.picture document.now.givens (E.calls engine.old)
        (E.calls engine.new)) }
    ensures few { AreFewBy document.now.picture document.now.givens cert.now
        (E.calls engine.old) (E.calls engine.new) }
    ensures same_longest { E.longest engine.new ≡ E.longest engine.old }
{
    let _ = (engine.calls(), document.picture.height());
    check_published(alloc, engine, &document.picture, cert, &document.givens)?;
    let looked = look(alloc, engine, document)?;
    let graded = grade(alloc, engine, document, looked.figures)?;
    let spare = find_spare(alloc, engine, document, &looked.book)?;
    Ok(described(document, looked, Verdict::Unique, graded, spare))
}

// The assessment with what was found of a document.
fn described(
    document: &Document,
    looked: Looked,
    verdict: Verdict,
    graded: Graded,
    spare: Option<Cell>,
) -> Assessment
    requires { IsLooked document.now looked }
    ensures described { IsDescribed document.now result }
    ensures verdict { result.verdict ≡ verdict }
    ensures figures { result.figures ≡ looked.figures }
    ensures grade { result.grade ≡ graded.grade }
    ensures cert { result.cert ≡ graded.cert }
    ensures spare { result.spare ≡ spare }
{
    let picture = &document.picture;
    Assessment {
        verdict,
        height: picture.height(),
        width: picture.width(),
        colours: count_colours(picture),
        givens: document.givens.len(),
        figures: looked.figures,
        grade: graded.grade,
        cert: graded.cert,
        is_blank: !is_painted(picture),
        lacks_background: !has_colour(picture, 0),
        spare,
        alike: looked.alike,
    }
}

// How many colours cells have.
fn count_colours(picture: &Picture) -> u8
    ensures { result ≡ colour_count picture.now }
{
    let mut count = 0;
    for colour in 0..MAX_COLOURS {
        if has_colour(picture, colour) {
            count += 1;
        }
    }
    count
}
