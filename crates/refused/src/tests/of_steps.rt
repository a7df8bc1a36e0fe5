//! Steps and the book that they are put into.

use super::made::{CELLS, book_of_row, clues_of_row, engine_of};
use super::shown::{same_book, same_facts};
use super::{Memory, equal, first_of, refused};
use clues::ClueBook;
use justify::{Book, Reason, StepFault, laws};
use line_facts::{LineEngine, NOTHING_DONE};
use line_settle::MaskEngine;
use picture::{Axis, LineId};
use std::alloc::{AllocError, Global};
use std::process::Abort;

const ROW: LineId = LineId {
    axis: Axis::Across,
    at: 0,
};

// Adds the next step of a row to the book, and says whether the row gave one.
fn draw(
    rt: &impl Abort,
    engine: &mut MaskEngine,
    book: &mut Book,
    clues: &ClueBook,
    at: u8,
) -> Result<bool, StepFault> {
    laws::new_steps_follow();
    let line = LineId {
        axis: Axis::Across,
        at,
    };
    assert!(rt; at < book.facts().height());
    assert!(rt; at < clues.height());
    assert!(rt; book.facts().line_len(line) <= engine.longest());
    match book.make_step(engine, clues.clue(line), line, &mut NOTHING_DONE)? {
        Some(step) => {
            book.add_step(step)?;
            Ok(true)
        }
        None => Ok(false),
    }
}

// Lets the row draw, and draw again where an allocation was refused.
fn draws(
    rt: &impl Abort,
    memory: Memory,
    engine: &mut MaskEngine,
    book: &mut Book,
    clues: &ClueBook,
) {
    let is_drawn = match draw(rt, engine, book, clues, 0) {
        Ok(is_drawn) => is_drawn,
        Err(fault) => {
            refused(rt, memory, fault, StepFault::Memory);
            equal(rt, "steps", book.steps().len(), 0);
            same_facts(rt, book.facts(), book.base());
            draw(rt, engine, book, clues, 0).expect(rt, "only one growth is refused")
        }
    };
    assert!(rt; is_drawn);
}

// The step draws on each cell, from premises on all cells but the last.
fn has_the_step(rt: &impl Abort, book: &Book) {
    let steps = book.steps();
    assert!(rt; steps.len() == 1);
    let cells = usize::from(CELLS);
    equal(
        rt,
        "premises",
        steps[0].premises.as_slice().len(),
        cells - 1,
    );
    equal(rt, "drawn", steps[0].drawn.as_slice().len(), cells);
}

// Why the last cell is not background.
fn reason(
    rt: &impl Abort,
    engine: &mut MaskEngine,
    book: &Book,
    clues: &ClueBook,
) -> Result<Option<Reason>, AllocError> {
    let base = book.base();
    assert!(rt; base.width() == CELLS && base.height() == 1 && engine.longest() >= CELLS);
    let stands = book.stands(engine, clues);
    let given = base.excluded(0, CELLS - 1, 0);
    assert!(rt; stands && !given);
    book.trimmed(clues, 0, CELLS - 1, 0)
}

fn explains(
    rt: &impl Abort,
    memory: Memory,
    engine: &mut MaskEngine,
    book: &Book,
    clues: &ClueBook,
) {
    let first = reason(rt, engine, book, clues);
    let second = reason(rt, engine, book, clues);
    let reason = first_of(rt, memory, AllocError, first, second).expect(rt, "a reason");
    equal(rt, "a step", reason.step, 0);
    equal(rt, "a line", reason.line, ROW);
    equal(
        rt,
        "premises",
        reason.premises.as_slice().len(),
        usize::from(CELLS) - 1,
    );
}

// The book with the step of the row.
fn drawn(
    rt: &impl Abort,
    alloc: Global,
    memory: Memory,
    engine: &mut MaskEngine,
    clues: &ClueBook,
) -> Book {
    let mut book = book_of_row(rt, alloc, memory);
    draws(rt, memory, engine, &mut book, clues);
    has_the_step(rt, &book);
    book
}

fn copied(rt: &impl Abort, memory: Memory, book: &Book) -> Book {
    let copy = first_of(rt, memory, AllocError, book.copy(), book.copy());
    same_book(rt, &copy, book);
    copy
}

// Draws, copies and asks for a reason.
fn goes_on(rt: &impl Abort, alloc: Global, memory: Memory) {
    let mut engine = engine_of(rt, alloc, memory);
    let clues = clues_of_row(rt, alloc, memory);
    let book = drawn(rt, alloc, memory, &mut engine, &clues);
    let copy = copied(rt, memory, &book);
    explains(rt, memory, &mut engine, &copy, &clues);
}

#[test]
fn a_refused_growth_changes_nothing(rt: HostRuntime) {
    goes_on(&rt, rt.alloc(), Memory::Refused);
}

#[test]
fn ample_memory_is_enough(rt: HostRuntime) {
    goes_on(&rt, rt.alloc(), Memory::Ample);
}
