//! Puzzles that are settled and searched.
//!
//! `settle ENGINE AGENDA PUZZLE` prints the evaluations and the facts, or `dead`. `first PUZZLE` prints a picture with the clues or
//! `none`, and `turns EVALUATIONS CONFLICTS PUZZLE` the same within these bounds. `parts FACTS` prints the cells of each
//! part, numbered from 1. `judge PICTURE [ALLOWANCE]` judges a picture by its parts, and once more under no allowance;
//! `cost PICTURE ALLOWANCE` also prints the evaluations. `within SPLITS AGAIN WINDOW CONFLICTS FIRST PICTURE` decides the parts
//! within these `Bounds`, and makes a certificate within the same bounds.

ghost use Rattle.second_search.specs.Parts.{IsScene};

use crate::assessing::{assessed, assessed_by};
use crate::bounded::{decide, push_cert};
use crate::puzzles::{Puzzle, puzzle_in};
use crate::search::{Said, Tally, judge, settled};
use crate::settle::{Settled, settled_by};
use anyhow::{Context, Result, bail, ensure};
use clues::ClueBook;
use line_facts::{Facts, LineEngine};
use line_settle::MaskEngine;
use picture::{CellSet, Document, MAX_SIDE};
use second_search::{Bounds, Keeper, Parts, Scene, TURNS, Turns, find_first_within};
use std::alloc::Global;
use table_words::{document_in, facts_in, push_facts, push_picture};

/// Prints the answer to a call.
pub fn tell(rt: &(impl AllocGlobal + Print), words: &[&str]) -> Result<()> {
    let told = told_of(rt.alloc(), words)?;
    print!(rt; "{told}")?;
    Ok(())
}

// The answer to the call that some words make.
fn told_of(alloc: Global, words: &[&str]) -> Result<String> {
    match words {
        ["settle", engine, agenda, puzzle] => settle_text(alloc, engine, agenda, puzzle),
        ["first", puzzle] => first_text(alloc, TURNS, puzzle),
        ["turns", evaluations, conflicts, puzzle] => {
            first_text(alloc, turns_in(evaluations, conflicts)?, puzzle)
        }
        ["parts", facts] => parts(alloc, &facts_in(alloc, facts)?),
        ["judge", picture] => judge_text(alloc, picture, None, false),
        ["judge", picture, most] => judge_text(alloc, picture, Some(splits_in(most)?), false),
        ["cost", picture, most] => judge_text(alloc, picture, Some(splits_in(most)?), true),
        ["within", splits, again, window, conflicts, first, picture] => {
            let bounds = bounds_in(splits, again, window, conflicts, first)?;
            within_text(alloc, bounds, picture)
        }
        ["assess", more @ ..] => assess_words(alloc, more),
        _ => bail!("settle, first, turns, parts, judge, cost, within or assess"),
    }
}

// The answer to a call of `assess`.
fn assess_words(alloc: Global, words: &[&str]) -> Result<String> {
    match words {
        [picture] => assessed(alloc, picture, None),
        ["by", other, picture] => assessed_by(alloc, picture, other),
        [picture, most] => assessed(alloc, picture, Some(splits_in(most)?)),
        _ => bail!("assess PICTURE [ALLOWANCE], or assess by OTHER PICTURE"),
    }
}

fn splits_in(word: &str) -> Result<u32> {
    Ok(word.parse().context("the allowance")?)
}

fn bounds_in(
    splits: &str,
    again: &str,
    window: &str,
    conflicts: &str,
    first: &str,
) -> Result<Bounds> {
    Ok(Bounds {
        fixed_splits: splits_in(splits)?,
        again_splits: splits_in(again)?,
        window_splits: splits_in(window)?,
        conflicts: conflicts.parse().context("the conflicts")?,
        first_bound: first.parse().context("the first bound")?,
    })
}

fn turns_in(evaluations: &str, conflicts: &str) -> Result<Turns> {
    Ok(Turns {
        evaluations: evaluations.parse().context("the evaluations")?,
        conflicts: conflicts.parse().context("the conflicts")?,
    })
}

fn first_text(alloc: Global, turns: Turns, puzzle: &str) -> Result<String> {
    first(alloc, turns, &puzzle_in(alloc, puzzle)?)
}

fn within_text(alloc: Global, bounds: Bounds, picture: &str) -> Result<String> {
    within(alloc, bounds, &document_in(alloc, picture)?)
}

fn settle_text(alloc: Global, engine: &str, agenda: &str, puzzle: &str) -> Result<String> {
    settle(alloc, engine, agenda, &puzzle_in(alloc, puzzle)?)
}

fn judge_text(
    alloc: Global,
    picture: &str,
    allowance: Option<u32>,
    is_counted: bool,
) -> Result<String> {
    judge_twice(alloc, &document_in(alloc, picture)?, allowance, is_counted)
}

// The evaluations of settling, and the facts; or `dead`.
fn settle(alloc: Global, engine: &str, agenda: &str, puzzle: &Puzzle) -> Result<String> {
    let mut text = String::new(alloc);
    let Settled { evaluations, facts } = settled_by(
        alloc,
        engine,
        agenda,
        &puzzle.clues,
        &puzzle.base,
    )?;
    match facts {
        Some(facts) => {
            writeln!(text, "{evaluations} evaluations")?;
            push_facts(alloc, &mut text, &facts)?;
        }
        None => text.push_str("dead")?,
    }
    text.push('\n')?;
    Ok(text)
}

// A picture with the clues, or `none`.
fn first(alloc: Global, turns: Turns, puzzle: &Puzzle) -> Result<String> {
    let mut engine = MaskEngine::make(alloc, MAX_SIDE)?;
    let clues = &puzzle.clues;
    ensure!(clues.height() <= engine.longest(), "too many rows");
    ensure!(clues.width() <= engine.longest(), "too many columns");
    let mut text = String::new(alloc);
    match find_first_within(alloc, &mut engine, clues, turns)? {
        Some(picture) => push_picture(&mut text, &picture)?,
        None => text.push_str("none")?,
    }
    text.push('\n')?;
    Ok(text)
}

// The cells of each part.
fn parts(alloc: Global, facts: &Facts) -> Result<String> {
    let parts = Parts::of(alloc, facts)?;
    let mut text = String::new(alloc);
    for i in 0..parts.len() {
        push_cells(&mut text, parts.cells(i))?;
    }
    Ok(text)
}

// Appends the rows and columns of cells to a text, as a line.
fn push_cells(text: &mut String, cells: &CellSet) -> Result<()> {
    for row in 0..MAX_SIDE {
        for col in 0..MAX_SIDE {
            if cells.has(row, col) {
                let (row, col) = (u16::from(row) + 1, u16::from(col) + 1);
                write!(text, " {row},{col}")?;
            }
        }
    }
    text.push('\n')?;
    Ok(())
}

// Judges a picture under an allowance where there is one, and once more under none.
fn judge_twice(
    alloc: Global,
    document: &Document,
    allowance: Option<u32>,
    is_counted: bool,
) -> Result<String> {
    let mut engine = MaskEngine::make(alloc, MAX_SIDE)?;
    let clues = ClueBook::of(alloc, &document.picture)?;
    let facts = settled(alloc, &mut engine, &clues, document)?;
    let tallies = judged(alloc, &mut engine, &clues, document, &facts, allowance)?;
    let mut text = String::new(alloc);
    for tally in tallies {
        push_tally(&mut text, &tally, is_counted)?;
    }
    Ok(text)
}

// Decides the parts of a picture within bounds, and makes a certificate.
fn within(alloc: Global, bounds: Bounds, document: &Document) -> Result<String> {
    let mut engine = MaskEngine::make(alloc, MAX_SIDE)?;
    let clues = ClueBook::of(alloc, &document.picture)?;
    let facts = settled(alloc, &mut engine, &clues, document)?;
    let scene = Scene {
        clues: &clues,
        givens: &document.givens,
        facts: &facts,
        picture: &document.picture,
    };
    let tally = decide(alloc, &mut engine, &scene, bounds)?;
    let mut text = String::new(alloc);
    push_tally(&mut text, &tally, true)?;
    push_cert(alloc, &mut engine, document, bounds, &mut text)?;
    text.push('\n')?;
    Ok(text)
}

// Judges a picture under an allowance, and then again under none, with what was kept of the first judgement.
fn judged<E: LineEngine>(
    alloc: Global,
    engine: &mut E,
    clues: &ClueBook,
    document: &Document,
    facts: &Facts,
    allowance: Option<u32>,
) -> Result<[Tally; 2]>
    requires { IsScene clues.now document.now.givens facts.now document.now.picture }
{
    let scene = Scene {
        clues,
        givens: &document.givens,
        facts,
        picture: &document.picture,
    };
    let mut keeper = Keeper::start(alloc, facts)?;
    let first = judge(engine, &mut keeper, &scene, allowance)?;
    let again = judge(engine, &mut keeper, &scene, None)?;
    Ok([first, again])
}

// Appends a verdict and its work to a text, as a line.
fn push_tally(text: &mut String, tally: &Tally, is_counted: bool) -> Result<()> {
    text.push_str(tally.said.name())?;
    write!(
        text,
        ", {} searched, {} splits",
        tally.searched, tally.splits
    )?;
    if is_counted {
        write!(text, ", {} evaluations", tally.evaluations)?;
    }
    if let Said::Other(picture) = &tally.said {
        text.push_str(": ")?;
        push_picture(text, picture)?;
    }
    text.push('\n')?;
    Ok(())
}
