//! Books that are closed, extended by a schedule, and kept.

ghost use Rattle.std.specs.List.{All};
ghost use Rattle.justify.specs.Book.{IsDerivation};
ghost use Rattle.picture.specs.Rows.{HasLine};

use super::made::{CELLS, book_of_row, clues_of_row, engine_of, row_base};
use super::shown::same_book;
use super::{Memory, equal, first_of};
use clues::{Change, ClueBook};
use justify::Book;
use line_facts::{Facts, LineEngine, NOTHING_DONE};
use line_settle::MaskEngine;
use picture::{Axis, LineId};
use propagate::{CloseFault, InOrder, all_lines, close, run_schedule};
use retract::{Kept, keep};
use std::alloc::{AllocError, Global};
use std::process::Abort;

// The first column, the row and the last column. Each of the first two draws a step.
const LINES: [LineId; 3] = [
    LineId {
        axis: Axis::Down,
        at: 0,
    },
    LineId {
        axis: Axis::Across,
        at: 0,
    },
    LineId {
        axis: Axis::Down,
        at: CELLS - 1,
    },
];

// Panics where a book of the row is not a derivation from the clues.
fn follows(rt: &impl Abort, engine: &mut MaskEngine, book: &Book, clues: &ClueBook)
    ensures { IsDerivation clues.now book.now }
{
    let base = book.base();
    assert!(rt; base.width() <= engine.longest() && base.height() <= engine.longest());
    let stands = book.stands(engine, clues);
    assert!(rt; stands);
}

// Panics where some line is not a line of the facts.
fn are_lines(rt: &impl Abort, facts: &Facts, lines: &[LineId])
    ensures { All (HasLine facts.now) lines.now }
{
    for line in lines {
        match line.axis {
            Axis::Across => assert!(rt; line.at < facts.height()),
            Axis::Down => assert!(rt; line.at < facts.width()),
        }
    }
}

// Closes a book of which every line is dirty.
fn closed(
    rt: &impl Abort,
    engine: &mut MaskEngine,
    book: Book,
    clues: &ClueBook,
) -> Result<Book, CloseFault> {
    follows(rt, engine, &book, clues);
    let facts = book.facts();
    assert!(rt; facts.height() == clues.height() && facts.width() == clues.width());
    assert!(rt; facts.height() <= engine.longest() && facts.width() <= engine.longest());
    let dirty = all_lines(book.facts());
    close(
        engine,
        &mut InOrder::make(),
        book,
        clues,
        &dirty,
        &mut NOTHING_DONE,
    )
}

// Evaluates lines one after the other.
fn run(
    rt: &impl Abort,
    engine: &mut MaskEngine,
    book: Book,
    clues: &ClueBook,
) -> Result<Book, CloseFault> {
    follows(rt, engine, &book, clues);
    let facts = book.facts();
    assert!(rt; facts.height() == clues.height() && facts.width() == clues.width());
    assert!(rt; facts.height() <= engine.longest() && facts.width() <= engine.longest());
    are_lines(rt, facts, &LINES);
    run_schedule(engine, book, clues, &LINES, &mut NOTHING_DONE)
}

// Keeps a book where nothing changes.
fn kept(
    rt: &impl Abort,
    alloc: Global,
    engine: &mut MaskEngine,
    book: &Book,
    clues: &ClueBook,
) -> Result<Kept, AllocError> {
    let base = row_base(rt, alloc)?;
    let (height, width) = (clues.height(), clues.width());
    assert!(rt; base.height() == height && base.width() == width);
    follows(rt, engine, book, clues);
    let change = Change::cells(height, width);
    keep(alloc, book, clues, clues, &change, base)
}

// Panics unless a book has this number of steps and settles all cells, only the last to colour 1.
fn is_settled(rt: &impl Abort, book: &Book, steps: usize) {
    let facts = book.facts();
    equal(rt, "steps", book.steps().len(), steps);
    assert!(rt; facts.height() == 1 && facts.width() == CELLS);
    for at in 0..CELLS {
        let left = if at == CELLS - 1 { 2 } else { 1 };
        equal(rt, "colours left", facts.left(0, at), left);
    }
}

// Closes a book in one step, and keeps it whole.
fn closes_and_keeps(
    rt: &impl Abort,
    alloc: Global,
    memory: Memory,
    engine: &mut MaskEngine,
    clues: &ClueBook,
) {
    let one = book_of_row(rt, alloc, memory);
    let again = book_of_row(rt, alloc, memory);
    let first = closed(rt, engine, one, clues);
    let second = closed(rt, engine, again, clues);
    let book = first_of(rt, memory, CloseFault::Memory, first, second);
    is_settled(rt, &book, 1);
    let first = kept(rt, alloc, engine, &book, clues);
    let second = kept(rt, alloc, engine, &book, clues);
    let whole = first_of(rt, memory, AllocError, first, second);
    same_book(rt, &whole.book, &book);
    assert!(rt; whole.dirty.is_empty());
}

fn runs(rt: &impl Abort, alloc: Global, memory: Memory, engine: &mut MaskEngine, clues: &ClueBook) {
    let one = book_of_row(rt, alloc, memory);
    let again = book_of_row(rt, alloc, memory);
    let first = run(rt, engine, one, clues);
    let second = run(rt, engine, again, clues);
    is_settled(
        rt,
        &first_of(rt, memory, CloseFault::Memory, first, second),
        2,
    );
}

fn goes_on(rt: &impl Abort, alloc: Global, memory: Memory) {
    let mut engine = engine_of(rt, alloc, memory);
    let clues = clues_of_row(rt, alloc, memory);
    closes_and_keeps(rt, alloc, memory, &mut engine, &clues);
    runs(rt, alloc, memory, &mut engine, &clues);
}

#[test]
fn a_refused_growth_changes_nothing(rt: HostRuntime) {
    goes_on(&rt, rt.alloc(), Memory::Refused);
}

#[test]
fn ample_memory_is_enough(rt: HostRuntime) {
    goes_on(&rt, rt.alloc(), Memory::Ample);
}
