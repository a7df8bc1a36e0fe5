//! The exact outcome of closing facts: a dead line, a picture, or a first open cell.

ghost use Rattle.std.specs.Prelude.{◌≡◌, ◌+◌, ◌<◌, ◌≤◌, IfOk, OnOk};
ghost use Rattle.picture.specs.LineSet.{name_count};
ghost use Rattle.line_facts.specs.FactSets.{IsFacts, SameShape};
ghost use Rattle.fixpoint.specs.ClosedFacts.{AreClosable, EachFits, QuietOutside};
ghost use Rattle.fixpoint.specs.LineNames.{AreLinesOf};
ghost use Rattle.second_search.specs.SettledFacts.{AreRowsSettled, ShowOthers, Shows};
ghost use Rattle.second_search.specs.FixedOrder.{Comes, ComesClosed, IsCalled, SplitsBut};
ghost use Rattle.second_search.specs.Evaluations.{most_to_close};

use crate::looking::{first_unsettled, shown_on};
use clues::ClueBook;
use fixpoint::{InOrder, close_naming};
use line_facts::{Facts, LineEngine, Outcome};
use picture::{LineSet, Picture};
use std::alloc::AllocError;
use trail::Cell;

// The outcome of closing facts: no list fits some line, or they leave one picture, or a cell is to be split.
#[derive(Drop)]
pub(crate) enum Coming {
    Dies,
    Ends(Picture),
    Splits(Facts, Cell),
}

// What is due at facts: the lines that may still exclude something, the rows that may leave more than a known picture's colours,
// and the row above which each cell is settled.
#[derive(Drop)]
pub(crate) struct Due {
    pub lines: LineSet,
    pub rows: LineSet,
    pub top: u8,
}

// Closes facts and looks at what they leave. Also names the lines in which facts that are to be split may differ from those before.
// At least one line must be due, and each line that is not due must be quiet.
pub(crate) fn come_to<E: LineEngine>(
    engine: &mut E,
    book: &ClueBook,
    known: &Picture,
    facts: &Facts,
    due: &Due,
) -> Result<(Coming, LineSet), AllocError>
    requires closable { AreClosable book.now (E.longest engine.old) facts.now }
    requires lines { AreLinesOf facts.now due.now.lines }
    requires quiet { QuietOutside book.now facts.now due.now.lines }
    requires some { 0 < name_count due.now.lines }
    requires above { AreRowsSettled facts.now due.now.top }
    requires same_shape { SameShape known.now facts.now }
    requires others { ShowOthers known.now due.now.rows facts.now }
    ensures comes { IfOk result (λ (coming, _). Comes book.now facts.now coming) }
    ensures kept { IfOk result (λ (coming, changed). SplitsBut facts.now coming changed) }
    ensures calls { E.calls engine.old ≤ E.calls engine.new }
    ensures called { OnOk result (IsCalled (E.calls engine.old) (E.calls engine.new)) }
    ensures few { E.calls engine.new ≤ E.calls engine.old + most_to_close facts.now }
    ensures same_longest { E.longest engine.new ≡ E.longest engine.old }
{
    let _ = (engine.calls(), facts.height());
    let mut settled = facts.copy()?;
    let mut agenda = InOrder::make();
    let closed = close_naming(engine, &mut agenda, &mut settled, book, &due.lines);
    match closed.outcome {
        Outcome::Dead => Ok((Coming::Dies, closed.changed)),
        Outcome::Narrowed => {
            let coming = split_or_end(known, settled, due)?;
            Ok((coming, closed.changed))
        }
    }
}

// The first open cell of closed facts, or the picture that they leave. Each row above `due.top` must be settled.
fn split_or_end(known: &Picture, settled: Facts, due: &Due) -> Result<Coming, AllocError>
    requires above { AreRowsSettled settled due.now.top }
    requires same_shape { SameShape known.now settled }
    requires others { ShowOthers known.now due.now.rows settled }
    ensures { IfOk result (ComesClosed settled) }
{
    let _ = settled.height();
    match first_unsettled(&settled, &due.rows, due.top) {
        Some(cell) => Ok(Coming::Splits(settled, cell)),
        None => Ok(Coming::Ends(shown_on(known.copy()?, &settled, &due.rows))),
    }
}
