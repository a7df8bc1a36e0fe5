//! Compares what two values show.

use super::equal;
use clues::{Clue, ClueBook};
use justify::{Book, Step};
use line_facts::Facts;
use line_settle::MaskEngine;
use live_audit::Bench;
use picture::{Axis, Document, LineId, Picture};
use propagate::InOrder;
use std::process::Abort;

/// Panics where two benches differ in document, clues, book, map, history or counts of work.
pub fn same_audit(
    rt: &impl Abort,
    one: &Bench<MaskEngine, InOrder>,
    other: &Bench<MaskEngine, InOrder>,
) {
    same_document(rt, one.document(), other.document());
    same_clues(rt, one.clues(), other.clues());
    same_book(rt, one.book(), other.book());
    same_facts(rt, one.map(), other.map());
    equal(rt, "the past", one.past_len(), other.past_len());
    equal(rt, "the future", one.future_len(), other.future_len());
    equal(rt, "work", one.work(), other.work());
}

pub fn same_document(rt: &impl Abort, one: &Document, other: &Document) {
    assert!(rt; one.picture.same(&other.picture));
    equal(rt, "colours", one.palette.len(), other.palette.len());
    for k in 0..one.palette.len() {
        assert!(rt; k < other.palette.len());
        equal(rt, "a colour", one.palette.rgb(k), other.palette.rgb(k));
    }
    same_givens(rt, one, other);
}

fn same_givens(rt: &impl Abort, one: &Document, other: &Document) {
    equal(rt, "givens", one.givens.len(), other.givens.len());
    for row in 0..one.picture.height() {
        for col in 0..one.picture.width() {
            assert!(rt; row < 120 && col < 120);
            let (given, wanted) = (one.givens.has(row, col), other.givens.has(row, col));
            equal(rt, "a given", given, wanted);
        }
    }
}

// The clue of a row or column by its place.
fn clue_at<'a>(rt: &impl Abort, clues: &'a ClueBook, axis: Axis, at: u8) -> &'a Clue {
    match axis {
        Axis::Across => assert!(rt; at < clues.height()),
        Axis::Down => assert!(rt; at < clues.width()),
    }
    clues.clue(LineId { axis, at })
}

fn same_clues(rt: &impl Abort, one: &ClueBook, other: &ClueBook) {
    assert!(rt; one.height() == other.height() && one.width() == other.width());
    for at in 0..one.height() {
        let clue = clue_at(rt, one, Axis::Across, at);
        assert!(rt; clue.same(clue_at(rt, other, Axis::Across, at)));
    }
    for at in 0..one.width() {
        let clue = clue_at(rt, one, Axis::Down, at);
        assert!(rt; clue.same(clue_at(rt, other, Axis::Down, at)));
    }
}

fn same_step(rt: &impl Abort, one: &Step, other: &Step) {
    let (premises, wanted) = (one.premises.as_slice(), other.premises.as_slice());
    equal(rt, "a line", one.line, other.line);
    equal(rt, "premises", premises, wanted);
    equal(rt, "drawn", one.drawn.as_slice(), other.drawn.as_slice());
}

/// Panics where two books differ in their base, steps or facts.
pub fn same_book(rt: &impl Abort, one: &Book, other: &Book) {
    same_facts(rt, one.base(), other.base());
    equal(rt, "steps", one.steps().len(), other.steps().len());
    for (one, other) in one.steps().iter().zip(other.steps()) {
        same_step(rt, one, other);
    }
    same_facts(rt, one.facts(), other.facts());
}

/// Compares the colours left in each cell.
pub fn same_facts(rt: &impl Abort, one: &Facts, other: &Facts) {
    assert!(rt; one.height() == other.height() && one.width() == other.width());
    for row in 0..one.height() {
        for col in 0..one.width() {
            equal(rt, "colours left", one.left(row, col), other.left(row, col));
        }
    }
}

/// The cells of a picture of up to four by four, row after row of four, and background outside.
pub fn cells_of(picture: &Picture) -> [u8; 16] {
    let mut cells = [0; 16];
    for i in 0..16u8 {
        let (row, col) = (i / 4, i % 4);
        if row < picture.height() && col < picture.width() {
            cells[usize::from(i)] = picture.cell(row, col);
        }
    }
    cells
}
