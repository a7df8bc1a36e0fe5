//! Clues over an edit.
//!
//! `refresh ROWS EDIT ..` makes an edit and refreshes the clues from before it: the new
//! picture, its clues and the lines of it that the edit touches are printed.

ghost use Rattle.std.specs.Prelude.{◌≡◌, IfOk};
ghost use Rattle.clues.specs.Change.{IsChangeOf};
ghost use Rattle.clues.specs.ClueBook.{clues_of};

use anyhow::{Result, bail};
use clues::{Change, ClueBook, laws};
use edits::Studio;
use picture::{Document, Picture};
use std::alloc::Global;
use table_words::{document_in, edit_in, push_clues, push_rows, push_touched};

/// Prints clues as an edit refreshes them.
pub fn tell(rt: &(impl AllocGlobal + Print), words: &[&str]) -> Result<()> {
    let alloc = rt.alloc();
    let ["refresh", rows, edit @ ..] = words else {
        bail!("refresh ROWS EDIT ..");
    };
    let text = refresh_text(alloc, rows, edit)?;
    println!(rt; "{text}")?;
    Ok(())
}

// The picture that an edit makes, its clues as they come from those before it, and the lines that it touches.
fn refresh_text(alloc: Global, rows: &str, edit: &[&str]) -> Result<String> {
    let edit = edit_in(edit)?;
    let studio = Studio::start(alloc, document_in(alloc, rows)?, 1)?;
    let prepared = studio.prepare(alloc, &edit)?;
    let old = studio.document();
    changed_text(alloc, old, prepared.document(), prepared.change())
}

// The new picture of a change, its clues and the lines that are touched.
fn changed_text(alloc: Global, old: &Document, new: &Document, change: &Change) -> Result<String>
    requires { IsChangeOf change.now old.now.picture new.now.picture }
{
    let clues = refreshed(alloc, &old.picture, &new.picture, change)?;
    let mut text = String::new(alloc);
    push_rows(&mut text, new)?;
    text.push(' ')?;
    push_clues(&mut text, &clues)?;
    text.push_str(" touched")?;
    push_touched(&mut text, &old.picture, &new.picture, change)?;
    Ok(text)
}

// The clues of a picture, refreshed from those of the one before. The clauses of `clues` prove them right.
fn refreshed(alloc: Global, old: &Picture, new: &Picture, change: &Change) -> Result<ClueBook>
    requires { IsChangeOf change.now old.now new.now }
    ensures { IfOk result (λ book. book ≡ clues_of new.now) }
{
    laws::untouched_clues_stand();
    let before = ClueBook::of(alloc, old)?;
    Ok(before.refresh(new, change)?)
}
