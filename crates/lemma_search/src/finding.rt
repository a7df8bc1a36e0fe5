//! Another picture, or the lines of a proof that there is none.

ghost use Rattle.std.specs.Prelude.{◌≡◌, ◌≤◌};

use crate::board::Board;
use crate::plan::Plan;
use crate::running::{Effort, Ended};
use crate::search::Search;
use crate::telling::Teller;
use crate::trace::Trace;
use crate::writing::write_lines;
use cert_text::CertLine;
use clues::ClueBook;
use line_facts::LineEngine;
use picture::{CellSet, Picture};
use std::alloc::{AllocError, Global};

/// What a search found. None of it is proved: the caller has to check the lines, or to compare the picture with the clues.
#[derive(Drop)]
pub enum Found {
    /// The lines of a proof by lemmas.
    Proof(Vec<CertLine>),
    /// Another picture.
    Other(Picture),
    /// The search reached its bounds, its steps gave no proof, or it aimed and there is no other picture.
    Nothing,
}

/// Searches for another picture with the clues and the givens of a picture, and learns a lemma from each conflict. Where there is
/// none, it answers the lines of a proof, or nothing if it aims.
pub fn learn<E: LineEngine>(
    alloc: Global,
    engine: &mut E,
    clues: &ClueBook,
    givens: &CellSet,
    picture: &Picture,
    effort: Effort,
) -> Result<Found, AllocError>
    ensures calls { E.calls engine.old ≤ E.calls engine.new }
    ensures same_longest { E.longest engine.new ≡ E.longest engine.old }
{
    let board = Board::new(alloc, clues, givens, picture)?;
    let mut search = Search::new(alloc, &board)?;
    if effort.aims {
        search.furthest = 0;
        search.log.keeps = false;
    }
    match search.run(alloc, engine, effort)? {
        Ended::Other(other) => Ok(Found::Other(other)),
        Ended::Unique if !effort.aims => tell(alloc, engine, &search),
        Ended::Unique | Ended::Undecided => Ok(Found::Nothing),
    }
}

// Tells the proof of a search that found no other picture. If it has lemmas, the lines that are left are told once more: a lemma with
// fewer uses may now be told inside, and more lines can be left out.
fn tell<E: LineEngine>(alloc: Global, engine: &mut E, search: &Search) -> Result<Found, AllocError>
    ensures calls { E.calls engine.old ≤ E.calls engine.new }
    ensures same_longest { E.longest engine.new ≡ E.longest engine.old }
{
    let plan = Plan::new(alloc, &search.log, &search.store)?;
    let Some(told) = tell_plan(alloc, engine, search, plan)? else {
        return Ok(Found::Nothing);
    };
    if told.plan.lemmas.is_empty() {
        return Ok(Found::Proof(write_lines(alloc, &told)?));
    }
    let plan = Plan::again(alloc, &told.plan, &told.lines, &told.spans)?;
    let lines = match tell_plan(alloc, engine, search, plan)? {
        Some(again) => write_lines(alloc, &again)?,
        None => write_lines(alloc, &told)?,
    };
    Ok(Found::Proof(lines))
}

// Tells a plan. None if a step is a conflict where it was none in the search, or the other way round.
fn tell_plan<'a, E: LineEngine>(
    alloc: Global,
    engine: &mut E,
    search: &'a Search<'a>,
    plan: Plan<'a>,
) -> Result<Option<Teller<'a>>, AllocError>
    ensures calls { E.calls engine.old ≤ E.calls engine.new }
    ensures same_longest { E.longest engine.new ≡ E.longest engine.old }
{
    let facts = Trace::new(alloc, search.board, &search.store)?;
    let mut teller = Teller::new(alloc, plan, facts);
    let is_told = teller.tell(engine)?;
    Ok(if is_told { Some(teller) } else { None })
}
