//! Calls on one line.
//!
//! `narrow CLUE MASKS` lets both engines narrow a line, and prints what is left, or `dead`. `engine CELLS` prints the `longest`
//! and the `calls` of line engines for this number of cells. `leave-out CLUE MASKS AMONG` draws those of the colours AMONG that the
//! line excludes, and prints them and the masks that are needed for that. `force FACTS LINE CLUE` forces a line of a picture, and
//! prints the facts and the lines that cross it where it changed.
//!
//! `engines LENGTH` compares both engines with brute force, on all clues and masks in two colours, `random COUNT SEED` one with the
//! other on random lines, `leaving-out LENGTH` what is left out with a trial of each cell.

mod chance;
mod drawing;
mod leaving;
mod listing;
mod narrowing;

use anyhow::{Context, Result, bail, ensure};
use clues::Clue;
use line_facts::{Facts, Forced, LineEngine, Outcome, force_crossing};
use line_settle::{MaskEngine, PlainEngine};
use narrowing::{Engines, Narrowed};
use picture::{Axis, LineId, LineSet};
use std::alloc::{AllocError, Global};
use table_words::{clue_in, facts_in, line_in, masks_in, push_facts, push_line, push_masks};

/// Answers a call on lines.
pub fn tell(rt: &(impl AllocGlobal + Print), words: &[&str]) -> Result<()> {
    let alloc = rt.alloc();
    let text = match words {
        ["narrow", clue, masks] => narrow_text(alloc, clue, masks)?,
        ["engine", cells] => engine_text(alloc, cells)?,
        ["leave-out", clue, masks, among] => leave_out_text(alloc, clue, masks, among)?,
        ["force", facts, line, clue] => force_text(alloc, facts, line, clue)?,
        _ => bail!("no such call"),
    };
    println!(rt; "{text}")?;
    Ok(())
}

/// Answers a call that goes over many lines.
pub fn tell_of_many(rt: &(impl AllocGlobal + Print), words: &[&str]) -> Result<()> {
    let alloc = rt.alloc();
    let text = match words {
        ["engines", most] => listing::compare_all(alloc, number_in(most)?)?,
        ["random", count, seed] => chance::compare_all(alloc, number_in(count)?, number_in(seed)?)?,
        ["leaving-out", most] => leaving::compare_all(alloc, number_in(most)?)?,
        _ => bail!("no such call"),
    };
    println!(rt; "{text}")?;
    Ok(())
}

fn number_in(word: &str) -> Result<u32> {
    Ok(word.parse().context("a number")?)
}

// What both engines leave of a line.
fn narrow_text(alloc: Global, clue: &str, masks: &str) -> Result<String> {
    let clue = clue_in(alloc, clue)?;
    let left = masks_in(alloc, masks)?;
    let mut engines = Engines::make(alloc, 120)?;
    let (plain, mask) = engines.narrow(&clue, &left)?;
    let mut text = String::new(alloc);
    push_narrowed(&mut text, &plain, left.len())?;
    if plain != mask {
        text.push_str(" but the mask engine ")?;
        push_narrowed(&mut text, &mask, left.len())?;
    }
    Ok(text)
}

// Appends what is left of the first `cells` cells to a text.
fn push_narrowed(text: &mut String, narrowed: &Narrowed, cells: usize) -> Result<()> {
    ensure!(cells <= 120, "a line has at most 120 cells");
    let left = &narrowed.left[..cells];
    if narrowed.outcome == Outcome::Dead {
        text.push_str("dead")?;
        if left.iter().all(|mask| *mask == 0) {
            return Ok(());
        }
        text.push(' ')?;
    }
    push_masks(text, left)?;
    Ok(())
}

// The `longest` and `calls` of both engines for this number of cells.
fn engine_text(alloc: Global, cells: &str) -> Result<String> {
    let cells: u8 = cells.parse().context("a number of cells")?;
    ensure!(cells <= 120, "at most 120 cells");
    let plain = PlainEngine::make(alloc, cells)?;
    let mask = MaskEngine::make(alloc, cells)?;
    let (longest, calls) = (plain.longest(), plain.calls());
    let (other_longest, other_calls) = (mask.longest(), mask.calls());
    Ok(format!(in alloc;
        "plain {longest} cells {calls} calls, mask {other_longest} cells {other_calls} calls"
    )?)
}

// Which of some colours a line excludes, and what is needed for that.
fn leave_out_text(alloc: Global, clue: &str, masks: &str, among: &str) -> Result<String> {
    let clue = clue_in(alloc, clue)?;
    let left = masks_in(alloc, masks)?;
    let among = masks_in(alloc, among)?;
    left_out_text(alloc, &clue, &left, &among)
}

// Which of some colours, as masks, a line excludes, and what is needed for that.
fn left_out_text(alloc: Global, clue: &Clue, left: &[u16], among: &[u16]) -> Result<String> {
    let mut engine = MaskEngine::make(alloc, 120)?;
    let (drawn, kept) = drawing::draw_and_leave_out(&mut engine, clue, left, among)?;
    ensure!(left.len() <= 120, "a line has at most 120 cells");
    let mut text = String::new(alloc);
    text.push_str("drawn ")?;
    push_masks(&mut text, &drawn[..left.len()])?;
    text.push_str(" kept ")?;
    push_masks(&mut text, &kept[..left.len()])?;
    Ok(text)
}

// The facts after a line of them was forced, and the lines that cross it where it changed.
fn force_text(alloc: Global, facts: &str, line: &str, clue: &str) -> Result<String> {
    let mut facts = facts_in(alloc, facts)?;
    let (forced, count) = force_line(alloc, &mut facts, line_in(line)?, clue)?;
    let mut text = String::new(alloc);
    if forced.outcome == Outcome::Dead {
        text.push_str("dead ")?;
    }
    push_facts(alloc, &mut text, &facts)?;
    write!(text, " {count} evaluation, changed")?;
    push_lines(&mut text, &forced.changed)?;
    Ok(text)
}

// Forces a line, and counts the evaluations.
fn force_line(alloc: Global, facts: &mut Facts, line: LineId, clue: &str) -> Result<(Forced, u64)> {
    let clue = clue_in(alloc, clue)?;
    let lines = match line.axis {
        Axis::Across => facts.height(),
        Axis::Down => facts.width(),
    };
    ensure!(line.at < lines, "no such line");
    let mut engine = MaskEngine::make(alloc, 120)?;
    ensure!(facts.line_len(line) <= engine.longest(), "too many cells");
    let mut count = 0;
    let forced = force_crossing(&mut engine, facts, &clue, line, &mut count);
    Ok((forced, count))
}

// Appends the names of lines to a text.
fn push_lines(text: &mut String, lines: &LineSet) -> Result<(), AllocError> {
    for axis in [Axis::Across, Axis::Down] {
        for at in 0..120u8 {
            let line = LineId { axis, at };
            if lines.has(line) {
                text.push(' ')?;
                push_line(text, line)?;
            }
        }
    }
    Ok(())
}
