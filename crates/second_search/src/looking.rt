//! The first cell of facts that is not settled, and the picture that settled facts show.

ghost use Rattle.std.specs.Prelude.{◌≡◌, ℕ, ◌<◌, List, length, IfOk, MatchOption};
ghost use Rattle.picture.specs.LineSet.{HasName};
ghost use Rattle.picture.specs.Rows.{width_of, cell_at};
ghost use Rattle.line_facts.specs.Masks.{IsOnly};
ghost use Rattle.line_facts.specs.FactSets.{SameShape};
ghost use Rattle.second_search.specs.Through.{across};
ghost use Rattle.second_search.specs.SettledFacts.{AreOthersSettled, AreRowsSettled, AreSettled, IsFirstUnsettled, ShowOthers, Shows, ShowsRow};

use fixpoint::all_lines;
use line_facts::Facts;
use picture::{LineSet, Picture};
use std::alloc::{AllocError, Global};
use trail::{Cell, has_row};

// The first cell in row order in which not just one colour is left. None may be above row `top` or in a row that is not named.
pub(crate) fn first_unsettled(facts: &Facts, rows: &LineSet, top: u8) -> Option<Cell>
    requires others { AreOthersSettled rows.now facts.now }
    requires above { AreRowsSettled facts.now top }
    ensures { MatchOption result (AreSettled facts.now) (IsFirstUnsettled facts.now) }
{
    for row in top..facts.height() {
        match unsettled_in_row(facts, rows, row) {
            Some(col) => return Some(Cell { row, col }),
            None => {}
        }
    }
    None
}

// The column of the first such cell of a row.
fn unsettled_in_row(facts: &Facts, rows: &LineSet, row: u8) -> Option<u8>
    requires others { AreOthersSettled rows.now facts.now }
    requires in_rows { row < length facts.now }
    ensures { MatchOption
        result
        ((col : ℕ) → col < width_of facts.now → (k : ℕ) × IsOnly (cell_at facts.now row col) k)
        (λ col. (col < width_of facts.now) × ((k : ℕ) → IsOnly (cell_at facts.now row col) k → ⊥)
        × ((c : ℕ) → c < col → (k : ℕ) × IsOnly (cell_at facts.now row c) k)) }
{
    let width = facts.width();
    if !has_row(rows, row) {
        return None;
    }
    for col in 0..width {
        let Some(_) = facts.shown(row, col) else {
            return Some(col);
        };
    }
    None
}

// The picture that settled facts show.
pub(crate) fn shown_picture(alloc: Global, facts: &Facts) -> Result<Picture, AllocError>
    requires { AreSettled facts.now }
    ensures { IfOk result (Shows facts.now) }
{
    let blank = Picture::blank(alloc, facts.height(), facts.width())?;
    Ok(shown_on(blank, facts, &all_lines(facts)))
}

// The picture that settled facts show, made from one that they show already in the rows that are not named.
pub(crate) fn shown_on(picture: Picture, facts: &Facts, rows: &LineSet) -> Picture
    requires settled { AreSettled facts.now }
    requires same_shape { SameShape picture facts.now }
    requires others { ShowOthers picture rows.now facts.now }
    ensures { Shows facts.now result }
{
    let mut shown = picture;
    for row in 0..facts.height() {
        show_row(facts, rows, &mut shown, row);
    }
    let _ = shown.height();
    shown
}

// Sets the cells of a row to the settled colours, which it has already if it is not named.
fn show_row(facts: &Facts, rows: &LineSet, picture: &mut Picture, row: u8)
    requires settled { AreSettled facts.now }
    requires same_shape { SameShape picture.old facts.now }
    requires in_rows { row < length facts.now }
    requires shown { (HasName rows.now (across row) → ⊥) → (col : ℕ) → col < width_of facts.now
        → IsOnly (cell_at facts.now row col) (cell_at picture.old row col) }
    ensures { ShowsRow facts.now picture.old picture.new row }
{
    let width = facts.width();
    if !has_row(rows, row) {
        return;
    }
    for col in 0..width {
        match facts.shown(row, col) {
            Some(colour) => picture.set(row, col, colour),
            None => {}
        }
    }
}
