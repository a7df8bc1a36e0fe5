//! Certificates by small trees.

ghost use Rattle.std.specs.Prelude.{◌≡◌, ◌+◌, ◌*◌, ◌≤◌, ◌⊎◌, length, IfNone, IfOk, IfSome};
ghost use Rattle.picture.specs.Document.{AreInside};
ghost use Rattle.picture.specs.Rows.{width_of};
ghost use Rattle.certificate.specs.MadeCert.{HasOther, IsMade};
ghost use Rattle.second_search.specs.Evaluations.{BothReach, most_in_tree};

use crate::proving::Reach;
use crate::root::Root;
use crate::trees::{Growth, decide_by_trees};
use cert_text::Cert;
use lemma_proof::Made;
use line_facts::LineEngine;
use picture::{CellSet, Picture};
use second_search::Scene;
use std::alloc::{AllocError, Global};

/// Makes a certificate as `make_cert` does, if a tree comes within a bound of evaluations: at first one whose cells are chosen by
/// looking ahead, and then one whose cells are the first open ones. None only if both have reached the bound, or if there is
/// another picture. Each exceeds the bound by no more evaluations than the picture has lines.
pub fn make_small_cert<E: LineEngine>(
    alloc: Global,
    engine: &mut E,
    picture: &Picture,
    givens: &CellSet,
    bound: u64,
) -> Result<Option<Cert>, AllocError>
    requires inside { AreInside givens.now picture.now }
    requires wide { width_of picture.now ≤ E.longest engine.old }
    requires tall { length picture.now ≤ E.longest engine.old }
    ensures makes { IfOk result (λ found. IfSome found (IsMade picture.now givens.now)) }
    ensures none { IfOk result (λ found. IfNone found
        (HasOther picture.now givens.now
        ⊎ BothReach bound (E.calls engine.old) (E.calls engine.new))) }
    ensures calls { E.calls engine.old ≤ E.calls engine.new }
    ensures few { E.calls engine.new
        ≤ E.calls engine.old + 2 * most_in_tree picture.now bound }
    ensures same_longest { E.longest engine.new ≡ E.longest engine.old }
{
    let root = Root::of(alloc, picture, givens)?;
    let scene = Scene {
        clues: &root.clues,
        givens,
        facts: &root.facts,
        picture,
    };
    let growth = Growth {
        bound,
        judging: 0,
        reach: Reach::Bounded,
    };
    match decide_by_trees(alloc, engine, &scene, &root.cells, growth)? {
        Made::Proof(cert) => Ok(Some(cert)),
        Made::Other(_) => Ok(None),
        Made::Undecided => Ok(None),
    }
}
