//! The search for a certificate: near pictures first, then a small tree and lemmas, and without bounds whole trees.

ghost use Rattle.std.specs.Prelude.{◌≡◌, ◌⊎◌, ◌≤◌, length, IfOk};
ghost use Rattle.picture.specs.Document.{AreInside};
ghost use Rattle.picture.specs.Rows.{width_of};
ghost use Rattle.certificate.specs.Finding.{AreDecided, Finds, IsDecided};
ghost use Rattle.certificate.specs.Roots.{IsRoot};
ghost use Rattle.lemma_proof.specs.Making.{Makes};

use crate::branches::told_lines;
use crate::root::Root;
use crate::trees::{Growth, copied, decide_by_trees};
use cert_text::{CellNumber, Cert, CertLine, Form, runs_of, write_cert};
use lemma_proof::{EFFORT, Made, check_made, make_proof};
use line_facts::LineEngine;
use picture::{CellSet, Picture};
use second_search::{BOUNDS, Scene, find_near_other};
use std::alloc::{AllocError, Global};

/// How far a search goes: within the program's bounds, or until it has decided.
#[derive(Clone, Copy, Debug, PartialEq, Eq)]
pub enum Reach {
    Bounded,
    Complete,
}

// The lines of a tree as a certificate with lemmas, where each of its splits is between two colours. `Undecided` where there is
// no tree, or where its lines cannot be told in this way.
fn told_tree<E: LineEngine>(
    alloc: Global,
    engine: &mut E,
    scene: &Scene,
    cells: &[CellNumber],
    tree: &Made,
) -> Result<Made, AllocError>
    requires { IsRoot scene.now cells.now (E.longest engine.old) }
    ensures makes { IfOk result (Makes scene.now.picture.now scene.now.givens.now) }
    ensures calls { E.calls engine.old ≤ E.calls engine.new }
    ensures same_longest { E.longest engine.new ≡ E.longest engine.old }
{
    let _ = engine.calls();
    let Made::Proof(tree) = tree else {
        return Ok(Made::Undecided);
    };
    let Some(lines) = told_lines(alloc, scene.clues, tree.lines())? else {
        return Ok(Made::Undecided);
    };
    let givens = copied(alloc, cells)?;
    let runs = runs_of(alloc, &lines)?;
    let cert = Cert::new(Form::LemmaRuns, givens, lines, runs);
    check_made(alloc, engine, scene.picture, scene.givens, cert)
}

// Whether something is a certificate without a split: lines alone settle its picture.
fn is_straight(made: &Made) -> bool {
    let Made::Proof(cert) = made else {
        return false;
    };
    for line in cert.lines() {
        if matches!(line, CertLine::Split(_)) {
            return false;
        }
    }
    true
}

// What was made, and how long the text of a certificate is.
#[derive(Drop)]
struct Candidate {
    made: Made,
    length: usize,
}

impl Candidate {
    fn of(alloc: Global, made: Made) -> Result<Candidate, AllocError>
        ensures { IfOk result (λ candidate. candidate.made ≡ made) }
    {
        let length = match &made {
            Made::Proof(cert) => text_length(alloc, cert)?,
            Made::Other(_) => 0,
            Made::Undecided => 0,
        };
        Ok(Candidate { made, length })
    }

    // The first of two that is decided; of two certificates the one with the shorter text.
    fn or_shorter(self, other: Candidate) -> Candidate
        ensures one { (result ≡ self) ⊎ (result ≡ other) }
        ensures decided { AreDecided self.made other.made result.made }
    {
        match (&self.made, &other.made) {
            (Made::Undecided, _) => other,
            (Made::Proof(_), Made::Proof(_)) => {
                if other.length < self.length {
                    other
                } else {
                    self
                }
            }
            _ => self,
        }
    }
}

// The length of a certificate's text in bytes.
fn text_length(alloc: Global, cert: &Cert) -> Result<usize, AllocError> {
    let mut text = Vec::new(alloc);
    write_cert(cert, &mut text).map_err(|_| AllocError)?;
    Ok(text.len())
}

// Searches for a certificate, or another picture, where none that is near was found. A certificate is the shortest of these: a
// small tree, its lines with those of lemmas, and, where the tree has a split, what a search with lemmas makes.
fn proof_within<E: LineEngine>(
    alloc: Global,
    engine: &mut E,
    scene: &Scene,
    cells: &[CellNumber],
) -> Result<Made, AllocError>
    requires { IsRoot scene.now cells.now (E.longest engine.old) }
    ensures finds { IfOk result
        (Finds scene.now.picture.now scene.now.givens.now Reach.Bounded) }
    ensures calls { E.calls engine.old ≤ E.calls engine.new }
    ensures same_longest { E.longest engine.new ≡ E.longest engine.old }
{
    let tree = decide_by_trees(alloc, engine, scene, cells, growth_to(Reach::Bounded))?;
    if matches!(tree, Made::Other(_)) {
        return Ok(tree);
    }
    let straight = is_straight(&tree);
    let told = told_tree(alloc, engine, scene, cells, &tree)?;
    let by_steps = Candidate::of(alloc, told)?;
    let by_tree = Candidate::of(alloc, tree)?;
    let best = by_steps.or_shorter(by_tree);
    if straight {
        return Ok(best.made);
    }
    let learnt = make_proof(alloc, engine, scene.picture, scene.givens, EFFORT)?;
    let by_lemmas = Candidate::of(alloc, learnt)?;
    let best = by_lemmas.or_shorter(best);
    Ok(best.made)
}

// The growth of trees from the program's bound.
fn growth_to(reach: Reach) -> Growth
    ensures { result.reach ≡ reach }
{
    Growth {
        bound: BOUNDS.first_bound,
        judging: 0,
        reach,
    }
}

// What was made; but where that is undecided, and there is to be no bound, what whole trees decide.
fn completed<E: LineEngine>(
    alloc: Global,
    engine: &mut E,
    scene: &Scene,
    cells: &[CellNumber],
    reach: Reach,
    made: Made,
) -> Result<Made, AllocError>
    requires root { IsRoot scene.now cells.now (E.longest engine.old) }
    requires finds { Finds scene.now.picture.now scene.now.givens.now Reach.Bounded made }
    ensures finds { IfOk result (Finds scene.now.picture.now scene.now.givens.now reach) }
    ensures same { IfOk result (IsDecided made) }
    ensures calls { E.calls engine.old ≤ E.calls engine.new }
    ensures same_longest { E.longest engine.new ≡ E.longest engine.old }
{
    let _ = engine.calls();
    match (made, reach) {
        (Made::Undecided, Reach::Complete) => {
            let decided = decide_by_trees(alloc, engine, scene, cells, growth_to(reach))?;
            Ok(decided)
        }
        (made, _) => Ok(made),
    }
}

/// Makes a certificate with exactly these givens: `check_cert` accepts it, so no other picture has the clues and, in the givens,
/// the colours. Or it finds such a picture. If the reach is `Complete`, it always decides: the answer is a certificate exactly if
/// there is no other picture, and else another picture. If it is `Bounded`, it may be undecided.
///
/// Pictures near this one are tried first. Which form the certificate has is not promised. No line of the picture may be
/// longer than the engine takes. The engine's calls do not fall.
pub fn find_proof<E: LineEngine>(
    alloc: Global,
    engine: &mut E,
    picture: &Picture,
    givens: &CellSet,
    reach: Reach,
) -> Result<Made, AllocError>
    requires inside { AreInside givens.now picture.now }
    requires wide { width_of picture.now ≤ E.longest engine.old }
    requires tall { length picture.now ≤ E.longest engine.old }
    ensures finds { IfOk result (Finds picture.now givens.now reach) }
    ensures calls { E.calls engine.old ≤ E.calls engine.new }
    ensures same_longest { E.longest engine.new ≡ E.longest engine.old }
{
    let root = Root::of(alloc, picture, givens)?;
    let scene = Scene {
        clues: &root.clues,
        givens,
        facts: &root.facts,
        picture,
    };
    if let Some(other) = find_near_other(alloc, engine, &scene, BOUNDS.window_splits)? {
        return Ok(Made::Other(other));
    }
    let made = proof_within(alloc, engine, &scene, &root.cells)?;
    completed(alloc, engine, &scene, &root.cells, reach, made)
}
