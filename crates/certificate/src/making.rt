//! The maker of certificates.

ghost use Rattle.std.specs.Prelude.{◌≡◌, ◌≤◌, length, IfOk, IsTrue};
ghost use Rattle.picture.specs.Document.{AreInside};
ghost use Rattle.picture.specs.Rows.{width_of};
ghost use Rattle.certificate.specs.MadeCert.{HasOther, Makes};
ghost use Rattle.cert_check.specs.Walk.{CanCheck};
ghost use Rattle.second_search.specs.Parts.{IsScene};

use crate::proving::Reach;
use crate::root::Root;
use crate::trees::{Growth, decide_by_trees};
use cert_text::Cert;
use lemma_proof::Made;
use line_facts::LineEngine;
use picture::{CellSet, Picture};
use second_search::{BOUNDS, Bounds, Scene, find_near_other};
use std::alloc::{AllocError, Global};

// Whether another picture was found that differs only in one window. None is looked for after an earlier judgement, or where
// windows may not split. Where the answer is false, there may be other pictures all the same.
fn has_near_other<E: LineEngine>(
    alloc: Global,
    engine: &mut E,
    scene: &Scene,
    splits: u32,
    judged: Option<u64>,
) -> Result<bool, AllocError>
    requires scene { IsScene scene.now.clues.now scene.now.givens.now scene.now.facts.now
        scene.now.picture.now }
    requires can { CanCheck scene.now.picture.now scene.now.clues.now (E.longest engine.old) }
    ensures other { IfOk result (λ found. IsTrue found
        → HasOther scene.now.picture.now scene.now.givens.now) }
    ensures same_longest { E.longest engine.new ≡ E.longest engine.old }
    ensures calls { E.calls engine.old ≤ E.calls engine.new }
{
    if splits == 0 || judged.is_some() {
        return Ok(false);
    }
    let near = find_near_other(alloc, engine, scene, splits)?;
    Ok(near.is_some())
}

/// Makes a certificate of a picture with exactly these givens: `check_cert` accepts it, so there is no other picture with the
/// clues and, in the givens, the colours. Its form is that of a tree. The answer is None exactly where there is another picture.
/// No line of the picture may be longer than the engine takes.
///
/// Another picture near this one is looked for first. The tree is written while it is searched for, and a refused allocation is
/// the error. Nothing is promised of its length. The engine's calls do not fall; how many lines are evaluated is not promised.
pub fn make_cert<E: LineEngine>(
    alloc: Global,
    engine: &mut E,
    picture: &Picture,
    givens: &CellSet,
) -> Result<Option<Cert>, AllocError>
    requires inside { AreInside givens.now picture.now }
    requires wide { width_of picture.now ≤ E.longest engine.old }
    requires tall { length picture.now ≤ E.longest engine.old }
    ensures makes { IfOk result (Makes picture.now givens.now) }
    ensures same_longest { E.longest engine.new ≡ E.longest engine.old }
    ensures calls { E.calls engine.old ≤ E.calls engine.new }
{
    make_cert_within(alloc, engine, picture, givens, BOUNDS, None)
}

/// Makes a certificate as `make_cert` does, within other bounds than the program's; only `window_splits` and `first_bound` are
/// used. `judged` is how many evaluations an earlier judgement made: then no near picture is looked for, and trees that it seems
/// to have broken off are not begun again. What is promised is the same whatever these are.
pub fn make_cert_within<E: LineEngine>(
    alloc: Global,
    engine: &mut E,
    picture: &Picture,
    givens: &CellSet,
    bounds: Bounds,
    judged: Option<u64>,
) -> Result<Option<Cert>, AllocError>
    requires inside { AreInside givens.now picture.now }
    requires wide { width_of picture.now ≤ E.longest engine.old }
    requires tall { length picture.now ≤ E.longest engine.old }
    ensures makes { IfOk result (Makes picture.now givens.now) }
    ensures same_longest { E.longest engine.new ≡ E.longest engine.old }
    ensures calls { E.calls engine.old ≤ E.calls engine.new }
{
    let root = Root::of(alloc, picture, givens)?;
    let scene = Scene {
        clues: &root.clues,
        givens,
        facts: &root.facts,
        picture,
    };
    if has_near_other(alloc, engine, &scene, bounds.window_splits, judged)? {
        return Ok(None);
    }
    let growth = Growth {
        bound: bounds.first_bound,
        judging: judged.unwrap_or(0),
        reach: Reach::Complete,
    };
    match decide_by_trees(alloc, engine, &scene, &root.cells, growth)? {
        Made::Proof(cert) => Ok(Some(cert)),
        Made::Other(_) => Ok(None),
        Made::Undecided => unreachable!(),
    }
}
