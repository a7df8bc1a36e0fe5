//! What trees decide: a certificate, or another picture.

ghost use Rattle.std.specs.Prelude.{◌≡◌, ◌≤◌, true, None, IfNone, IfOk, IfSome};
ghost use Rattle.cert_text.specs.Cert.{AreOfForm, AreOrdered, IsCert};
ghost use Rattle.certificate.specs.Growths.{AreFewFor, DecidesByTrees};
ghost use Rattle.certificate.specs.MadeCert.{IsTreeForm};
ghost use Rattle.certificate.specs.Roots.{IsRoot};
ghost use Rattle.fixpoint.specs.ClosedFacts.{AreClosable};
ghost use Rattle.second_search.specs.Evaluations.{BothReach};
ghost use Rattle.second_search.specs.Trees.{Decides};

use crate::proving::Reach;
use cert_text::{CellNumber, Cert, CertLine, Form};
use lemma_proof::Made;
use line_facts::LineEngine;
use second_search::{Decided, Ladder, Lines, Scene, climb, take_turn};
use std::alloc::{AllocError, Global};

/// How far trees are grown: one by each of two ways, within a bound of evaluations; or, if the reach is `Complete`, with growing
/// bounds as `climb` does it, after a judgement that made so many evaluations.
#[derive(Clone, Copy)]
pub(crate) struct Growth {
    pub bound: u64,
    pub judging: u64,
    pub reach: Reach,
}

/// What trees decide of a picture: a certificate in the form of a tree, or another picture. Undecided only if both trees have
/// reached a bound. They are guided by the picture.
pub(crate) fn decide_by_trees<E: LineEngine>(
    alloc: Global,
    engine: &mut E,
    scene: &Scene,
    cells: &[CellNumber],
    growth: Growth,
) -> Result<Made, AllocError>
    requires { IsRoot scene.now cells.now (E.longest engine.old) }
    ensures decides { IfOk result (DecidesByTrees scene.now.picture.now scene.now.givens.now growth
        (E.calls engine.old) (E.calls engine.new)) }
    ensures calls { E.calls engine.old ≤ E.calls engine.new }
    ensures few { AreFewFor growth scene.now.picture.now (E.calls engine.old)
        (E.calls engine.new) }
    ensures same_longest { E.longest engine.new ≡ E.longest engine.old }
{
    let decided = grown(alloc, engine, scene, growth)?;
    match decided {
        Some(Decided::Tree(Lines::Kept(lines))) => {
            let givens = copied(alloc, cells)?;
            Ok(Made::Proof(of_tree(alloc, givens, lines)))
        }
        Some(Decided::Tree(Lines::Dropped)) => unreachable!(),
        Some(Decided::OtherPicture(other)) => Ok(Made::Other(other)),
        None => Ok(Made::Undecided),
    }
}

// A tree with its lines, or another picture, where one of them is found.
fn grown<E: LineEngine>(
    alloc: Global,
    engine: &mut E,
    scene: &Scene,
    growth: Growth,
) -> Result<Option<Decided>, AllocError>
    requires { AreClosable scene.now.clues.now (E.longest engine.old) scene.now.facts.now }
    ensures decides { IfOk result (λ found. IfSome found
        (Decides scene.now.clues.now scene.now.picture.now scene.now.facts.now true)) }
    ensures bounded { IfOk result (λ found. found ≡ None → growth.reach ≡ Reach.Bounded) }
    ensures reached { growth.reach ≡ Reach.Bounded → IfOk result (λ found.
        IfNone found (BothReach growth.bound (E.calls engine.old) (E.calls engine.new))) }
    ensures calls { E.calls engine.old ≤ E.calls engine.new }
    ensures few { AreFewFor growth scene.now.facts.now (E.calls engine.old) (E.calls engine.new) }
    ensures same_longest { E.longest engine.new ≡ E.longest engine.old }
{
    let ladder = Ladder {
        first_bound: growth.bound,
        judging: growth.judging,
        holds: true,
        keeps: true,
    };
    match growth.reach {
        Reach::Bounded => take_turn(alloc, engine, scene, ladder, growth.bound, &mut 0),
        Reach::Complete => Ok(Some(climb(alloc, engine, scene, ladder)?)),
    }
}

/// A copy of some cells.
pub(crate) fn copied(alloc: Global, cells: &[CellNumber]) -> Result<Vec<CellNumber>, AllocError>
    ensures { IfOk result (λ copy. copy.items ≡ cells.now) }
{
    let mut copy = Vec::new(alloc);
    copy.extend_from_slice(cells)?;
    Ok(copy)
}

// The certificate with these givens and the lines of a tree.
fn of_tree(alloc: Global, givens: Vec<CellNumber>, lines: Vec<CertLine>) -> Cert
    requires givens { AreOrdered 0 givens.items }
    requires lines { AreOfForm Form.Tree lines.items }
    ensures cert { IsCert result }
    ensures givens { result.givens ≡ givens.items }
    ensures lines { result.lines ≡ lines.items }
    ensures form { IsTreeForm result.form givens.items }
{
    let form = tree_form(&givens);
    Cert::new(form, givens, lines, Vec::new(alloc))
}

// The form of a tree with these givens.
fn tree_form(givens: &[CellNumber]) -> Form
    ensures { IsTreeForm result givens.now }
{
    if givens.is_empty() {
        Form::Tree
    } else {
        Form::GivenTree
    }
}
