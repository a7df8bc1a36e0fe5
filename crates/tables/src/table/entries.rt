//! Edits and what is kept of them.
//!
//! `edit PICTURE EDIT ..` takes an edit in a session's words, and prints its error; or what is kept of it, the picture
//! after it with the lines that it touches, and the picture after it is undone with the lines that this touches.

ghost use Rattle.clues.specs.Change.{IsChangeOf};
ghost use Rattle.edits.specs.History.{IsPlanFor};

use anyhow::{Context, Result, bail};
use edits::{Edit, EditFault, Entry, Prepared, Studio};
use picture::Rgb;
use std::alloc::{AllocError, Global};
use table_words::{document_in, edit_in, letter_of, push_rows, push_touched};

/// Prints what becomes of an edit.
pub fn tell(rt: &(impl AllocGlobal + Print), words: &[&str]) -> Result<()> {
    let alloc = rt.alloc();
    let ["edit", picture, edit @ ..] = words else {
        bail!("edit PICTURE EDIT ..");
    };
    let told = told_of(alloc, picture, &edit_in(edit)?)?;
    print!(rt; "{told}")?;
    Ok(())
}

// What becomes of an edit.
fn told_of(alloc: Global, picture: &str, edit: &Edit) -> Result<String> {
    let mut studio = Studio::start(alloc, document_in(alloc, picture)?, 1)?;
    match studio.prepare(alloc, edit) {
        Ok(prepared) => made_text(alloc, &mut studio, prepared),
        Err(fault) => Ok(refused_text(alloc, &fault)?),
    }
}

fn refused_text(alloc: Global, fault: &EditFault) -> Result<String, AllocError> {
    let name = fault.name();
    format!(in alloc; "refused: {name}\n")
}

// Makes an edit and takes it back.
fn made_text(alloc: Global, studio: &mut Studio, prepared: Prepared) -> Result<String>
    requires plan { IsPlanFor studio.old prepared }
    requires change { IsChangeOf prepared.change studio.old.document.rows
        prepared.document.rows }
{
    let mut after = String::new(alloc);
    push_prepared(&mut after, studio, &prepared)?;
    studio.commit(prepared);
    push_undone(&mut after, studio)?;
    let mut text = String::new(alloc);
    push_entry(&mut text, studio.last_entry().context("an entry")?)?;
    text.push_str(after.as_str())?;
    Ok(text)
}

// Appends to a text what undoing the last edit prepares.
fn push_undone(text: &mut String, studio: &Studio) -> Result<()> {
    let prepared = studio.prepare_undo()?;
    push_prepared(text, studio, &prepared)
}

// Appends what is kept of an edit to a text, as a line: cells with their old colours, a colour's triple, and givens.
fn push_entry(text: &mut String, entry: &Entry) -> Result<()> {
    text.push_str("keeps")?;
    for (row, col, colour) in &entry.cells {
        let (row, col) = (u16::from(*row) + 1, u16::from(*col) + 1);
        write!(text, " {row},{col}={}", letter_of(*colour))?;
    }
    if let Some(Rgb { r, g, b }) = entry.triple {
        write!(text, " triple {r} {g} {b}")?;
    }
    for (row, col) in &entry.givens {
        let (row, col) = (u16::from(*row) + 1, u16::from(*col) + 1);
        write!(text, " given {row},{col}")?;
    }
    text.push('\n')?;
    Ok(())
}

// Appends what was prepared to a text, as a line: the document, and the lines that are touched.
fn push_prepared(text: &mut String, studio: &Studio, prepared: &Prepared) -> Result<()>
    requires { IsChangeOf prepared.now.change studio.now.document.rows prepared.now.document.rows }
{
    let (old, new) = (studio.document(), prepared.document());
    push_rows(text, new)?;
    text.push_str(" touches")?;
    push_touched(text, &old.picture, &new.picture, prepared.change())?;
    text.push('\n')?;
    Ok(())
}
