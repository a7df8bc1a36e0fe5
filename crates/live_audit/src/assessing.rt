//! What is worked out of a document, with nothing kept.

ghost use Rattle.std.specs.Prelude.{◌≡◌, ◌≤◌, IfOk};
ghost use Rattle.live_audit.specs.Audit.{IsAuditOf};
ghost use Rattle.edits.specs.Design.{design_of};
ghost use Rattle.live_audit.specs.Assessing.{AreFewToAssess, IsAssessmentOf, IsPathOf};

use crate::audit::Audit;
use crate::judging::scene_of;
use assess::{Assessment, assess};
use edits::know;
use grade::{Path, make_path, start_facts};
use line_facts::LineEngine;
use picture::{Document, MAX_SIDE};
use std::alloc::{AllocError, Global};

/// The path of line logic on a document, by its clues.
pub(crate) fn path_of<E: LineEngine>(
    alloc: Global,
    engine: &mut E,
    document: &Document,
    audit: &Audit,
) -> Result<Path, AllocError>
    requires audited { IsAuditOf (design_of document.now) audit.now.clues audit.now.book }
    requires long { MAX_SIDE ≤ E.longest engine.old }
    ensures path { IfOk result (IsPathOf (design_of document.now)) }
    ensures calls { E.calls engine.old ≤ E.calls engine.new }
    ensures same_longest { E.longest engine.new ≡ E.longest engine.old }
{
    let scene = scene_of(document, audit);
    let start = start_facts(alloc, document, scene.clues)?;
    let path = make_path(alloc, engine, start, scene.clues)?;
    Ok(path)
}

/// An assessment of a document under an allowance.
pub(crate) fn assessment_of<E: LineEngine>(
    alloc: Global,
    engine: &mut E,
    document: &Document,
    allowance: Option<u32>,
) -> Result<Assessment, AllocError>
    requires { MAX_SIDE ≤ E.longest engine.old }
    ensures assessment { IfOk result (IsAssessmentOf (design_of document.now) allowance) }
    ensures few { AreFewToAssess (design_of document.now) allowance (E.calls engine.old)
        (E.calls engine.new) }
    ensures calls { E.calls engine.old ≤ E.calls engine.new }
    ensures same_longest { E.longest engine.new ≡ E.longest engine.old }
{
    know(document);
    assess(alloc, engine, document, allowance)
}
