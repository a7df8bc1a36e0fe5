//! What is found of a puzzle without a search.

ghost use Rattle.std.specs.Prelude.{◌≡◌, ◌+◌, ◌≤◌, IfErr, IfOk};
ghost use Rattle.assess.specs.Looked.{IsLooked};

use clues::ClueBook;
use flaws::{Alike, alike_pairs};
use grade::{Figures, grade_lines, start_facts};
use line_facts::{Facts, LineEngine};
use picture::{Document, MAX_SIDE};
use std::alloc::{AllocError, Global};

/// What is found of a puzzle without a search: its clues, its map, the figures of line logic, and the colours that look alike.
#[derive(Drop)]
pub(crate) struct Looked {
    pub book: ClueBook,
    pub map: Facts,
    pub figures: Figures,
    pub alike: Vec<Alike>,
}

/// Counts the clues of a puzzle, runs line logic, and compares the colours.
pub(crate) fn look<E: LineEngine>(
    alloc: Global,
    engine: &mut E,
    document: &Document,
) -> Result<Looked, AllocError>
    requires { MAX_SIDE ≤ E.longest engine.old }
    ensures looked { IfOk result (IsLooked document.now) }
    ensures few { IfOk result (λ looked.
        E.calls engine.new ≤ E.calls engine.old + looked.figures.evaluations) }
    ensures idle { IfErr result (λ _. E.calls engine.new ≡ E.calls engine.old) }
    ensures calls { E.calls engine.old ≤ E.calls engine.new }
    ensures same_longest { E.longest engine.new ≡ E.longest engine.old }
{
    let _ = (engine.calls(), document.picture.height());
    let alike = alike_pairs(alloc, document)?;
    let book = ClueBook::of(alloc, &document.picture)?;
    let mut map = start_facts(alloc, document, &book)?;
    let figures = grade_lines(engine, &mut map, &book);
    Ok(Looked {
        book,
        map,
        figures,
        alike,
    })
}
