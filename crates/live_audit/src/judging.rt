//! Judging a document by the parts of its map, and what stays known of these.

ghost use Rattle.std.specs.Prelude.{◌≡◌, ◌≤◌, ℕ, length, None, IfOk, MatchOption, OnErr};
ghost use Rattle.second_search.specs.Verdict.{Verdict};
ghost use Rattle.second_search.specs.CarriedParts.{Carries};
ghost use Rattle.second_search.specs.JudgedParts.{Done, FirstFilling, HasNoFilling, Judges};
ghost use Rattle.second_search.specs.Parts.{IsScene, board};
ghost use Rattle.second_search.specs.Evaluations.{AreFew};
ghost use Rattle.live_audit.specs.Audit.{IsAuditOf, nothing_done};
ghost use Rattle.edits.specs.Design.{design_of};
ghost use Rattle.live_audit.specs.Bench.{AreAnswersOf, AreGivenCells};
ghost use Rattle.live_audit.specs.Verdict.{IsOtherFor, IsToldBy, ShowsOthers, WasDecided};

use crate::audit::Audit;
use crate::work::{NO_WORK, Work};
use edits::know;
use line_facts::LineEngine;
use picture::{Document, MAX_SIDE, Picture};
use second_search::{Judged, Keeper, Scene};
use std::alloc::AllocError;

/// The scene in which another picture for a document is searched for, by its audit.
pub(crate) fn scene_of<'a>(document: &'a Document, audit: &'a Audit) -> Scene<'a>
    requires { IsAuditOf (design_of document.now) audit.now.clues audit.now.book }
    ensures scene { IsScene result.clues.now result.givens.now result.facts.now result.picture.now }
    ensures clues { result.clues.now ≡ audit.now.clues }
    ensures facts { result.facts.now ≡ audit.now.book.facts }
    ensures picture { result.picture.now ≡ document.now.picture }
    ensures givens { result.givens.now ≡ document.now.givens }
    ensures cells { AreGivenCells (design_of document.now) document.now.givens }
{
    know(document);
    Scene {
        clues: &audit.clues,
        givens: &document.givens,
        facts: audit.book.facts(),
        picture: &document.picture,
    }
}

/// The parts of the new document's map, with what stays known of them from the old document. It is not inlined, so that a
/// profiler shows it.
#[inline(never)]
pub(crate) fn answers_next(
    keeper: &Keeper,
    old: &Document,
    before: &Audit,
    new: &Document,
    after: &Audit,
) -> Result<Keeper, AllocError>
    requires audited { IsAuditOf (design_of old.now) before.now.clues before.now.book }
    requires answers { AreAnswersOf (design_of old.now) before.now.clues before.now.book.facts
        keeper.now }
    requires next { IsAuditOf (design_of new.now) after.now.clues after.now.book }
    ensures answers { IfOk result
        (AreAnswersOf (design_of new.now) after.now.clues after.now.book.facts) }
    ensures carries { IfOk result (Carries
        (board before.now.clues before.now.book.facts old.now.picture)
        (board after.now.clues after.now.book.facts new.now.picture) keeper.now) }
{
    let before = scene_of(old, before);
    let after = scene_of(new, after);
    let keeper = keeper.carry(&before, &after)?;
    Ok(keeper)
}

#[tactic(auto, using(clues::proofs::LawLemmas::of_lines))]
/// Judges a document by the parts of its map, and keeps what the searches that ended found. Answers whether the verdict is
/// decided, and the work.
pub(crate) fn rule<E: LineEngine>(
    keeper: &mut Keeper,
    engine: &mut E,
    document: &Document,
    audit: &Audit,
    allowance: Option<u32>,
) -> Result<(bool, Work), AllocError>
    requires audited { IsAuditOf (design_of document.now) audit.now.clues audit.now.book }
    requires answers { AreAnswersOf (design_of document.now) audit.now.clues audit.now.book.facts
        keeper.old }
    requires long { MAX_SIDE ≤ E.longest engine.old }
    ensures judges { IfOk result (λ (is_decided, work). (j : Verdict)
        × (IsToldBy (design_of document.now) allowance keeper.new is_decided j
        × Done 0 work.parts 0 work.splits nothing_done work.search (E.calls engine.old)
        (E.calls engine.new)
        (Judges (board audit.now.clues audit.now.book.facts document.now.picture) allowance
        keeper.old keeper.new j))) }
    ensures few { IfOk result (λ (_, work).
        AreFew allowance audit.now.book.facts (length keeper.old) work.search.evaluations) }
    ensures answers { AreAnswersOf (design_of document.now) audit.now.clues audit.now.book.facts
        keeper.new }
    ensures refused { OnErr result (keeper.new ≡ keeper.old) }
    ensures calls { E.calls engine.old ≤ E.calls engine.new }
    ensures same_longest { E.longest engine.new ≡ E.longest engine.old }
{
    know(document);
    let _ = engine.calls();
    let scene = scene_of(document, audit);
    let mut work = NO_WORK;
    let judged = keeper.judge(
        engine,
        &scene,
        allowance,
        &mut work.search,
        &mut work.parts,
        &mut work.splits,
    )?;
    Ok((was_decided(&judged), work))
}

/// Judges a document by the parts of its map without an allowance, on a copy of what is kept of them, and gives the copy with
/// what was found. No other filling may be kept.
pub(crate) fn rule_beside<E: LineEngine>(
    keeper: &Keeper,
    engine: &mut E,
    document: &Document,
    audit: &Audit,
) -> Result<Keeper, AllocError>
    requires audited { IsAuditOf (design_of document.now) audit.now.clues audit.now.book }
    requires answers { AreAnswersOf (design_of document.now) audit.now.clues audit.now.book.facts
        keeper.now }
    requires none { HasNoFilling keeper.now (length keeper.now) }
    requires long { MAX_SIDE ≤ E.longest engine.old }
    ensures judges { IfOk result (λ next. (j : Verdict) × ((searched : ℕ) × ((splits : ℕ)
        × Judges (board audit.now.clues audit.now.book.facts document.now.picture) None
        keeper.now next j searched splits))) }
    ensures others { IfOk result (ShowsOthers (design_of document.now)) }
    ensures answers { IfOk result
        (AreAnswersOf (design_of document.now) audit.now.clues audit.now.book.facts) }
    ensures calls { E.calls engine.old ≤ E.calls engine.new }
    ensures same_longest { E.longest engine.new ≡ E.longest engine.old }
{
    let mut next = copy_of(keeper, document, audit)?;
    rule(&mut next, engine, document, audit, None)?;
    Ok(next)
}

// A copy of the parts with what is known of them, where no other filling is kept.
fn copy_of(keeper: &Keeper, document: &Document, audit: &Audit) -> Result<Keeper, AllocError>
    requires audited { IsAuditOf (design_of document.now) audit.now.clues audit.now.book }
    requires answers { AreAnswersOf (design_of document.now) audit.now.clues audit.now.book.facts
        keeper.now }
    requires none { HasNoFilling keeper.now (length keeper.now) }
    ensures { IfOk result (λ copy. copy ≡ keeper.now) }
{
    let scene = scene_of(document, audit);
    keeper.carry(&scene, &scene)
}

/// The other picture for a document that is kept, if one is.
pub(crate) fn other_kept<'a>(
    keeper: &'a Keeper,
    document: &Document,
    audit: &Audit,
) -> Option<&'a Picture>
    requires audited { IsAuditOf (design_of document.now) audit.now.clues audit.now.book }
    requires answers { AreAnswersOf (design_of document.now) audit.now.clues audit.now.book.facts
        keeper.now }
    ensures { MatchOption result (HasNoFilling keeper.now (length keeper.now))
        (λ other. FirstFilling keeper.now other.now
        × IsOtherFor (design_of document.now) other.now) }
{
    know(document);
    keeper.other()
}

// Whether a judgement was not broken off.
fn was_decided(judged: &Judged<'_>) -> bool
    ensures { WasDecided judged.now result }
{
    !matches!(judged, Judged::Undecided)
}
