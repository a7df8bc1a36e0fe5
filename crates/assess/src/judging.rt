//! The map of a puzzle, and its verdict where nothing is known of the parts.

ghost use Rattle.std.specs.Prelude.{◌≡◌, ◌+◌, ◌≤◌, IfOk};
ghost use Rattle.clues.specs.ClueBook.{clues_of};
ghost use Rattle.second_search.specs.Evaluations.{most_to_close};
ghost use Rattle.assess.specs.Calls.{AreFewInParts};
ghost use Rattle.assess.specs.Judging.{IsVerdict, verdict_of};
ghost use Rattle.assess.specs.Settling.{IsMap};

use crate::assessment::Verdict;
use clues::ClueBook;
use fixpoint::{CloseFault, InOrder, settle_afresh};
use line_facts::{Facts, LineEngine, NOTHING_DONE};
use picture::{Document, MAX_SIDE};
use second_search::{Judged, Keeper, Scene};
use std::alloc::{AllocError, Global};

/// Judges a puzzle by its map, each part with an allowance of splits if there is one.
pub(crate) fn judge_map<E: LineEngine>(
    alloc: Global,
    engine: &mut E,
    document: &Document,
    book: &ClueBook,
    map: &Facts,
    allowance: Option<u32>,
) -> Result<Verdict, AllocError>
    requires book { book.now ≡ clues_of document.now.picture }
    requires map { IsMap document.now.picture document.now.givens map.now }
    requires long { MAX_SIDE ≤ E.longest engine.old }
    ensures verdict { IfOk result
        (IsVerdict document.now.picture document.now.givens allowance) }
    ensures few { AreFewInParts document.now.picture allowance (E.calls engine.old)
        (E.calls engine.new) }
    ensures calls { E.calls engine.old ≤ E.calls engine.new }
    ensures same_longest { E.longest engine.new ≡ E.longest engine.old }
{
    let _ = (engine.calls(), document.picture.height());
    let scene = Scene {
        clues: book,
        givens: &document.givens,
        facts: map,
        picture: &document.picture,
    };
    let mut keeper = Keeper::start(alloc, map)?;
    let (mut meter, mut searched, mut splits) = (NOTHING_DONE, 0, 0);
    let judged = keeper.judge(
        engine,
        &scene,
        allowance,
        &mut meter,
        &mut searched,
        &mut splits,
    )?;
    let verdict = verdict_of(&judged)?;
    Ok(verdict)
}

// A judgement as a verdict, which has a copy of the other picture.
fn verdict_of(judged: &Judged<'_>) -> Result<Verdict, AllocError>
    ensures { IfOk result (λ verdict. verdict ≡ verdict_of judged.now) }
{
    match judged {
        Judged::Unique => Ok(Verdict::Unique),
        Judged::Other(other) => Ok(Verdict::Ambiguous(other.copy()?)),
        Judged::Undecided => Ok(Verdict::Undecided),
    }
}

/// The map of a puzzle.
pub(crate) fn settled<E: LineEngine>(
    alloc: Global,
    engine: &mut E,
    document: &Document,
    book: &ClueBook,
) -> Result<Facts, AllocError>
    requires book { book.now ≡ clues_of document.now.picture }
    requires long { MAX_SIDE ≤ E.longest engine.old }
    ensures map { IfOk result (IsMap document.now.picture document.now.givens) }
    ensures few { E.calls engine.new ≤ E.calls engine.old + most_to_close document.now.picture }
    ensures calls { E.calls engine.old ≤ E.calls engine.new }
    ensures same_longest { E.longest engine.new ≡ E.longest engine.old }
{
    let _ = (engine.calls(), document.picture.height());
    let base = Facts::base(alloc, document)?;
    let _ = base.height();
    let mut meter = NOTHING_DONE;
    match settle_afresh(engine, &mut InOrder::make(), book, &mut meter, &base) {
        Ok(map) => Ok(map),
        // The picture has the clues and the givens, so that no line is dead.
        Err(CloseFault::Dead) => unreachable!(),
        Err(CloseFault::Memory) => Err(AllocError),
    }
}
