//! Judging a picture by its parts, and the work that this takes.

ghost use Rattle.std.specs.Prelude.{◌≡◌, ◌≤◌, IfOk, OnOk};
ghost use Rattle.clues.specs.ClueBook.{clues_of};
ghost use Rattle.line_facts.specs.FactSets.{IsBase, IsLeast};
ghost use Rattle.second_search.specs.JudgedParts.{AreTrue, parts_of};
ghost use Rattle.second_search.specs.Parts.{AreParts, IsScene};

use anyhow::{Result, ensure};
use clues::ClueBook;
use fixpoint::{InOrder, settle_afresh};
use line_facts::{Facts, LineEngine, NOTHING_DONE};
use picture::{Document, Picture};
use second_search::{Judged, Keeper, Scene, laws};
use std::alloc::Global;

/// The verdict on a picture.
#[derive(Drop)]
pub enum Said {
    Unique,
    Other(Picture),
    Undecided,
}

/// The verdict on a picture, and the work that it took: parts searched, splits and line evaluations.
#[derive(Drop)]
pub struct Tally {
    pub said: Said,
    pub searched: u32,
    pub splits: u32,
    pub evaluations: u64,
}

impl Said {
    // The verdict of a judgement.
    fn of(judged: &Judged<'_>) -> Result<Said> {
        Ok(match judged {
            Judged::Unique => Said::Unique,
            Judged::Other(other) => Said::Other(other.copy()?),
            Judged::Undecided => Said::Undecided,
        })
    }

    /// The word for the verdict in a table.
    pub fn name(&self) -> &'static str {
        match self {
            Said::Unique => "unique",
            Said::Other(_) => "ambiguous",
            Said::Undecided => "undecided",
        }
    }
}

/// The map of a document: what the clues of its picture settle from its givens.
pub fn settled<E: LineEngine>(
    alloc: Global,
    engine: &mut E,
    book: &ClueBook,
    document: &Document,
) -> Result<Facts>
    requires clues { clues_of document.now.picture ≡ book.now }
    ensures scene { IfOk result
        (λ facts. IsScene book.now document.now.givens facts document.now.picture) }
{
    let base = Facts::base(alloc, document)?;
    ensure!(base.height() == book.height(), "the heights differ");
    ensure!(base.width() == book.width(), "the widths differ");
    ensure!(base.height() <= engine.longest(), "too many rows");
    ensure!(base.width() <= engine.longest(), "too many columns");
    let mut meter = NOTHING_DONE;
    let facts = settle_afresh(engine, &mut InOrder::make(), book, &mut meter, &base)?;
    is_scene(book, document, &base, &facts);
    Ok(facts)
}

// A search may start from what the clues of a picture settle from its givens.
fn is_scene(book: &ClueBook, document: &Document, base: &Facts, facts: &Facts)
    requires clues { clues_of document.now.picture ≡ book.now }
    requires base { IsBase document.now.givens document.now.picture base.now }
    requires least { IsLeast book.now base.now facts.now }
    ensures { IsScene book.now document.now.givens facts.now document.now.picture }
{
    laws::sound_facts();
    let _ = document.picture.height();
}

/// Judges a picture by its parts, under an allowance where there is one.
pub fn judge<E: LineEngine>(
    engine: &mut E,
    keeper: &mut Keeper,
    scene: &Scene,
    allowance: Option<u32>,
) -> Result<Tally>
    requires scene { IsScene scene.now.clues.now scene.now.givens.now scene.now.facts.now
        scene.now.picture.now }
    requires parts { AreParts scene.now.facts.now (parts_of keeper.old) }
    requires true_answers { AreTrue scene.now.clues.now scene.now.givens.now scene.now.picture.now
        keeper.old }
    ensures parts { OnOk result (AreParts scene.now.facts.now (parts_of keeper.new)) }
    ensures true_answers { OnOk result
        (AreTrue scene.now.clues.now scene.now.givens.now scene.now.picture.now keeper.new) }
{
    let clues = scene.clues;
    ensure!(clues.height() <= engine.longest(), "too many rows");
    ensure!(clues.width() <= engine.longest(), "too many columns");
    let mut meter = NOTHING_DONE;
    let mut searched = 0;
    let mut splits = 0;
    let judged = keeper.judge(
        engine,
        scene,
        allowance,
        &mut meter,
        &mut searched,
        &mut splits,
    )?;
    let said = Said::of(&judged)?;
    Ok(Tally {
        said,
        searched,
        splits,
        evaluations: meter.evaluations,
    })
}
