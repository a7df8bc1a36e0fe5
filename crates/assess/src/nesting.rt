//! How many splits of a tree stand in each other.

ghost use Rattle.std.specs.Prelude.{◌≡◌, ◌+◌, ◌++◌, ◌≤◌, drop, get_or, length, replicate, reverse, IfOk, OnOk};
ghost use Rattle.picture.specs.Rows.{width_of};
ghost use Rattle.line_facts.specs.FactSets.{SameShape};
ghost use Rattle.cert_check.specs.Tree.{Tree, Proves, written};
ghost use Rattle.cert_check.specs.Walk.{CanCheck};
ghost use Rattle.assess.specs.Guessing.{IsTreeOf, depth_of};
ghost use Rattle.assess.specs.Nesting.{nest_after};

use crate::following::follow;
use cert_check::set_givens;
use cert_text::{Cert, CertLine};
use clues::ClueBook;
use line_facts::{Facts, LineEngine};
use picture::Picture;
use std::alloc::{AllocError, Global};
use trail::Trail;

// The depth of a tree that proves a picture; that of another one may be any.
pub(crate) fn tree_depth<E: LineEngine>(
    alloc: Global,
    engine: &mut E,
    picture: &Picture,
    cert: &Cert,
) -> Result<u64, AllocError>
    requires wide { width_of picture.now ≤ E.longest engine.old }
    requires tall { length picture.now ≤ E.longest engine.old }
    ensures depth { IfOk result (λ depth. (tree : Tree) → IsTreeOf picture.now cert.now tree
        → depth ≡ depth_of tree) }
    ensures few { E.calls engine.new ≤ E.calls engine.old + length cert.now.lines }
    ensures calls { E.calls engine.old ≤ E.calls engine.new }
    ensures same_longest { E.longest engine.new ≡ E.longest engine.old }
{
    let clues = ClueBook::of(alloc, picture)?;
    let mut facts = Facts::none(alloc, picture.height(), picture.width())?;
    match set_givens(picture, &mut facts, cert.givens()) {
        Ok(()) => depth_from(alloc, engine, picture, &clues, facts, cert.lines()),
        Err(_) => Ok(0),
    }
}

// The depth of the tree that lines are, from these facts.
fn depth_from<E: LineEngine>(
    alloc: Global,
    engine: &mut E,
    picture: &Picture,
    clues: &ClueBook,
    facts: Facts,
    lines: &[CertLine],
) -> Result<u64, AllocError>
    requires can { CanCheck picture.now clues.now (E.longest engine.old) }
    requires same_shape { SameShape picture.now facts }
    ensures depth { IfOk result (λ depth. (tree : Tree) → lines.now ≡ written tree
        → Proves picture.now facts tree → depth ≡ depth_of tree) }
    ensures few { E.calls engine.new ≤ E.calls engine.old + length lines.now }
    ensures calls { E.calls engine.old ≤ E.calls engine.new }
    ensures same_longest { E.longest engine.new ≡ E.longest engine.old }
{
    let mut trail = Trail::start(alloc, facts);
    let mut nests = Vec::new(alloc);
    let mut depth = 0;
    for line in lines {
        let nest = nest_after(*line, take_nest(&mut nests));
        let begun = follow(&mut trail, engine, picture, clues, *line)?;
        push_nests(&mut nests, nest, begun)?;
        depth = depth.max(nest);
    }
    Ok(depth)
}

// In how many splits the branches stand that begin at a line, where it stands in so many.
fn nest_after(line: CertLine, nest: u64) -> u64
    ensures { result ≡ nest_after line nest }
{
    match line {
        CertLine::Split(_) => nest.saturating_add(1),
        _ => nest,
    }
}

// In how many splits the branch at hand stands. What is noted of the branches has that of the next one last, and 0 is not
// noted for the last of all.
fn take_nest(nests: &mut Vec<u64>) -> u64
    ensures taken { result ≡ get_or (reverse nests.old.items) 0 0 }
    ensures others { reverse nests.new.items ≡ drop 1 (reverse nests.old.items) }
{
    nests.pop().unwrap_or(0)
}

// Notes for each of the branches that begin in how many splits it stands.
fn push_nests(nests: &mut Vec<u64>, nest: u64, begun: usize) -> Result<(), AllocError>
    ensures { OnOk result (reverse nests.new.items
        ≡ replicate begun nest ++ reverse nests.old.items) }
{
    for branch in 0..begun {
        nests.push(nest)?;
    }
    Ok(())
}
