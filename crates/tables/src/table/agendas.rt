//! Agendas, which say in what order lines are evaluated.
//!
//! `agenda inorder WORD ..` or `agenda newest WORD ..`: the name of a line puts it, or several names joined by commas at once;
//! `clear` forgets all; `take` takes a line and prints its name, or `-` where none waits.

use anyhow::{Result, bail, ensure};
use picture::{LineSet, MAX_SIDE};
use propagate::{Agenda, InOrder, NewestFirst};
use std::alloc::Global;
use table_words::{line_in, push_line};

/// Prints in what order an agenda gives lines.
pub fn tell(rt: &(impl AllocGlobal + Print), words: &[&str]) -> Result<()> {
    let taken = match words {
        [_, "inorder", turns @ ..] => taken_by(rt.alloc(), &mut InOrder::make(), turns)?,
        [_, "newest", turns @ ..] => taken_by(rt.alloc(), &mut NewestFirst::make(), turns)?,
        _ => bail!("agenda inorder WORD .. or agenda newest WORD .."),
    };
    println!(rt; "{taken}")?;
    Ok(())
}

// The names of the lines that an agenda gives.
fn taken_by<A: Agenda>(alloc: Global, agenda: &mut A, turns: &[&str]) -> Result<String> {
    let mut text = String::new(alloc);
    for turn in turns {
        match *turn {
            "clear" => agenda.clear(),
            "take" => take(agenda, &mut text)?,
            lines if lines.contains(',') => agenda.put_all(&set_in(lines)?),
            name => {
                let line = line_in(name)?;
                ensure!(line.at < MAX_SIDE, "no such line");
                agenda.put(line);
            }
        }
    }
    Ok(text)
}

// Appends the name of the line that an agenda gives to a text.
fn take<A: Agenda>(agenda: &mut A, text: &mut String) -> Result<()> {
    if !text.is_empty() {
        text.push(' ')?;
    }
    match agenda.take() {
        Some(line) => push_line(text, line)?,
        None => text.push('-')?,
    }
    Ok(())
}

// The lines that a word names, joined by commas.
fn set_in(word: &str) -> Result<LineSet> {
    let mut lines = LineSet::empty();
    for name in word.split(',') {
        let line = line_in(name)?;
        ensure!(line.at < MAX_SIDE, "no such line");
        lines.put(line);
    }
    Ok(lines)
}
