//! The first given that a puzzle does not need.

ghost use Rattle.std.specs.Prelude.{◌≡◌, ◌+◌, ◌*◌, ◌<◌, ◌≤◌, length, IfOk};
ghost use Rattle.picture.specs.CellSet.{HasCell, cell_count};
ghost use Rattle.picture.specs.Rows.{width_of};
ghost use Rattle.clues.specs.ClueBook.{clues_of};
ghost use Rattle.clues.specs.Solution.{IsOnlySolution};
ghost use Rattle.second_search.specs.Evaluations.{most_to_close};
ghost use Rattle.assess.specs.Assessed.{IsSpareIf};
ghost use Rattle.assess.specs.Spares.{HasMap, IsSpare, SettlesWithout};

use crate::assessment::Verdict;
use crate::judging::settled;
use clues::ClueBook;
use line_facts::LineEngine;
use picture::{Document, MAX_SIDE};
use std::alloc::{AllocError, Global};
use trail::Cell;

/// Looks for a given that is not needed, if a puzzle is unique.
pub(crate) fn find_spare_if<E: LineEngine>(
    alloc: Global,
    engine: &mut E,
    document: &Document,
    book: &ClueBook,
    verdict: &Verdict,
) -> Result<Option<Cell>, AllocError>
    requires book { book.now ≡ clues_of document.now.picture }
    requires only { verdict.now ≡ Verdict.Unique → IsOnlySolution (clues_of document.now.picture)
        (HasCell document.now.givens) document.now.picture }
    requires mapped { HasMap document.now.picture document.now.givens }
    requires long { MAX_SIDE ≤ E.longest engine.old }
    ensures spare { IfOk result
        (IsSpareIf document.now.picture document.now.givens verdict.now) }
    ensures few { E.calls engine.new ≤ E.calls engine.old
        + cell_count document.now.givens * most_to_close document.now.picture }
    ensures calls { E.calls engine.old ≤ E.calls engine.new }
    ensures same_longest { E.longest engine.new ≡ E.longest engine.old }
{
    match verdict {
        Verdict::Unique => find_spare(alloc, engine, document, book),
        Verdict::Ambiguous(_) => Ok(None),
        Verdict::Undecided => Ok(None),
    }
}

/// Looks for a given that is not needed: without it there is still one solution, and line logic leaves the same cells open. That is
/// so where lines settle its cell without it.
pub(crate) fn find_spare<E: LineEngine>(
    alloc: Global,
    engine: &mut E,
    document: &Document,
    book: &ClueBook,
) -> Result<Option<Cell>, AllocError>
    requires book { book.now ≡ clues_of document.now.picture }
    requires only { IsOnlySolution (clues_of document.now.picture)
        (HasCell document.now.givens) document.now.picture }
    requires mapped { HasMap document.now.picture document.now.givens }
    requires long { MAX_SIDE ≤ E.longest engine.old }
    ensures spare { IfOk result (IsSpare document.now.picture document.now.givens) }
    ensures few { E.calls engine.new ≤ E.calls engine.old
        + cell_count document.now.givens * most_to_close document.now.picture }
    ensures calls { E.calls engine.old ≤ E.calls engine.new }
    ensures same_longest { E.longest engine.new ≡ E.longest engine.old }
{
    let _ = (
        engine.calls(),
        document.picture.height(),
        document.givens.len(),
    );
    // the givens that were not yet left out
    let mut waiting = document.givens;
    for row in 0..document.picture.height() {
        for col in 0..document.picture.width() {
            if !waiting.has(row, col) {
                continue;
            }
            waiting.take_out(row, col);
            let cell = Cell { row, col };
            let settles = settles_without(alloc, engine, document, book, cell)?;
            if settles {
                return Ok(Some(cell));
            }
        }
    }
    Ok(None)
}

// Whether lines settle the cell of a given without it.
fn settles_without<E: LineEngine>(
    alloc: Global,
    engine: &mut E,
    document: &Document,
    book: &ClueBook,
    cell: Cell,
) -> Result<bool, AllocError>
    requires book { book.now ≡ clues_of document.now.picture }
    requires in_rows { cell.row < length document.now.picture }
    requires in_columns { cell.col < width_of document.now.picture }
    requires long { MAX_SIDE ≤ E.longest engine.old }
    ensures settles { IfOk result
        (SettlesWithout document.now.picture document.now.givens cell.row cell.col) }
    ensures few { E.calls engine.new ≤ E.calls engine.old + most_to_close document.now.picture }
    ensures calls { E.calls engine.old ≤ E.calls engine.new }
    ensures same_longest { E.longest engine.new ≡ E.longest engine.old }
{
    let _ = (engine.calls(), document.picture.height());
    let mut copy = document.copy()?;
    copy.givens.take_out(cell.row, cell.col);
    let map = settled(alloc, engine, &copy, book)?;
    let shown = map.shown(cell.row, cell.col);
    Ok(shown.is_some())
}
