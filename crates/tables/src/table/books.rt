//! Books of reasons.
//!
//! `go-on PICTURE ; TURN ; TURN ..` begins a book without a step over what the picture's givens exclude, and prints its
//! steps and facts after the last turn. A turn is lines, as `r1,c2`, which are evaluated one after the other; `close`
//! or `close newest`, with all lines waiting; or an edit, `undo` or `redo` in a session's words, after which the steps
//! that stand are kept, and the dirty lines are printed. The evaluations of each turn are counted. Both engines must
//! give the same text.

ghost use Rattle.std.specs.Prelude.{◌≡◌, IfOk, OnOk};
ghost use Rattle.std.specs.List.{All};
ghost use Rattle.picture.specs.Rows.{HasLine};
ghost use Rattle.clues.specs.Change.{IsChangeOf};
ghost use Rattle.clues.specs.ClueBook.{clues_of};
ghost use Rattle.edits.specs.History.{IsPlanFor};
ghost use Rattle.justify.specs.Book.{IsDerivation};
ghost use Rattle.fixpoint.specs.ClosedFacts.{AreClosable};

use anyhow::{Result, bail, ensure};
use clues::ClueBook;
use clues::laws::clues_are_of_lines;
use edits::{Edit, Prepared, Studio};
use justify::Book;
use line_facts::{Facts, LineEngine, Meter, NOTHING_DONE};
use line_settle::{MaskEngine, PlainEngine};
use picture::{Axis, Document, LineId, LineSet, MAX_SIDE};
use propagate::{Agenda, InOrder, NewestFirst, all_lines, close, run_schedule};
use retract::{Kept, keep};
use std::alloc::{AllocError, Global};
use table_words::{document_in, edit_in, line_in, push_facts, push_line, push_steps};

/// A document with its history, the clues of its picture, and a book that follows from them.
#[derive(Drop)]
struct Desk {
    studio: Studio,
    clues: ClueBook,
    book: Book,
    ghost counted: { clues ≡ clues_of studio.document.rows },
    ghost follows: { IsDerivation clues book },
}

/// Prints what becomes of a book.
pub fn tell(rt: &(impl AllocGlobal + Print), words: &[&str]) -> Result<()> {
    let alloc = rt.alloc();
    let mut mask = MaskEngine::make(alloc, MAX_SIDE)?;
    let told = told_by(alloc, &mut mask, words)?;
    let mut plain = PlainEngine::make(alloc, MAX_SIDE)?;
    let plainly = told_by(alloc, &mut plain, words)?;
    ensure!(told.as_str() == plainly.as_str(), "the engines differ");
    print!(rt; "{told}")?;
    Ok(())
}

// The text of a book's turns, with one engine.
fn told_by<E: LineEngine>(alloc: Global, engine: &mut E, words: &[&str]) -> Result<String> {
    let [_, picture, ..] = words else {
        bail!("go-on PICTURE ; TURN ..");
    };
    let mut text = String::new(alloc);
    let desk = begin(alloc, engine, picture)?;
    let desk = go_through(alloc, engine, desk, &words[2..], &mut text)?;
    push_book(alloc, &mut text, &desk.book)?;
    Ok(text)
}

// Appends the steps of a book and its facts to a text.
fn push_book(alloc: Global, text: &mut String, book: &Book) -> Result<()> {
    push_steps(text, book.steps())?;
    text.push('\n')?;
    push_facts(alloc, text, book.facts())?;
    text.push('\n')?;
    Ok(())
}

// A desk whose book has no step.
fn begin<E: LineEngine>(alloc: Global, engine: &mut E, picture: &str) -> Result<Desk> {
    let document = document_in(alloc, picture)?;
    let clues = ClueBook::of(alloc, &document.picture)?;
    let book = begin_book(alloc, engine, &document, &clues)?;
    let studio = Studio::start(alloc, document, 100)?;
    Ok(Desk {
        studio,
        clues,
        book,
    })
}

// The book without a step.
fn begin_book<E: LineEngine>(
    alloc: Global,
    engine: &mut E,
    document: &Document,
    clues: &ClueBook,
) -> Result<Book>
    ensures { IfOk result (IsDerivation clues.now) }
{
    let base = Facts::base(alloc, document)?;
    let book = Book::start(alloc, base)?;
    fits(engine, &book, clues)?;
    ensure!(book.stands(engine, clues), "the book without a step stands");
    Ok(book)
}

// Takes turns, with `;` between two of them.
fn go_through<E: LineEngine>(
    alloc: Global,
    engine: &mut E,
    desk: Desk,
    words: &[&str],
    text: &mut String,
) -> Result<Desk> {
    let mut desk = desk;
    for turn in words.split(|word| *word == ";") {
        if !turn.is_empty() {
            desk = go_on(alloc, engine, desk, turn, text)?;
        }
    }
    Ok(desk)
}

// Takes a turn.
fn go_on<E: LineEngine>(
    alloc: Global,
    engine: &mut E,
    desk: Desk,
    turn: &[&str],
    text: &mut String,
) -> Result<Desk> {
    match turn {
        ["close", ..] | [_] if !is_edit(turn) => evaluate(alloc, engine, desk, turn, text),
        _ => keep_after(alloc, desk, turn, text),
    }
}

fn is_edit(turn: &[&str]) -> bool {
    matches!(turn, ["undo"] | ["redo"])
}

// Takes a turn that evaluates lines.
fn evaluate<E: LineEngine>(
    alloc: Global,
    engine: &mut E,
    desk: Desk,
    turn: &[&str],
    text: &mut String,
) -> Result<Desk> {
    let Desk {
        studio,
        clues,
        book,
    } = desk;
    let book = go_further(alloc, engine, book, &clues, turn, text)?;
    Ok(Desk {
        studio,
        clues,
        book,
    })
}

// A book after a turn that evaluates lines.
fn go_further<E: LineEngine>(
    alloc: Global,
    engine: &mut E,
    book: Book,
    clues: &ClueBook,
    turn: &[&str],
    text: &mut String,
) -> Result<Book>
    requires { IsDerivation clues.now book }
    ensures { IfOk result (IsDerivation clues.now) }
{
    match turn {
        ["close"] => close_all(engine, &mut InOrder::make(), book, clues, text),
        ["close", "newest"] => close_all(engine, &mut NewestFirst::make(), book, clues, text),
        [lines] => run(engine, book, clues, &lines_in(alloc, lines)?, text),
        _ => bail!("close, close newest, or lines"),
    }
}

// An error where an engine or clues do not fit a book.
fn fits<E: LineEngine>(engine: &E, book: &Book, clues: &ClueBook) -> Result<()>
    ensures { OnOk result (AreClosable clues.now (E.longest engine.now) book.now.facts
        × AreClosable clues.now (E.longest engine.now) book.now.base) }
{
    let (facts, base) = (book.facts(), book.base());
    ensure!(facts.height() == clues.height(), "as many rows");
    ensure!(facts.width() == clues.width(), "as many columns");
    ensure!(base.height() == clues.height(), "as many rows");
    ensure!(base.width() == clues.width(), "as many columns");
    ensure!(facts.height() <= engine.longest(), "too many rows");
    ensure!(facts.width() <= engine.longest(), "too many columns");
    Ok(())
}

// Evaluates lines one after the other.
fn run<E: LineEngine>(
    engine: &mut E,
    book: Book,
    clues: &ClueBook,
    lines: &[LineId],
    text: &mut String,
) -> Result<Book>
    requires { IsDerivation clues.now book }
    ensures { IfOk result (IsDerivation clues.now) }
{
    are_lines(book.facts(), lines)?;
    fits(engine, &book, clues)?;
    let mut meter = NOTHING_DONE;
    let book = run_schedule(engine, book, clues, lines, &mut meter)?;
    push_count(text, &meter)?;
    Ok(book)
}

// Appends how many lines were evaluated to a text.
fn push_count(text: &mut String, meter: &Meter) -> Result<(), AllocError> {
    let evaluations = meter.evaluations;
    writeln!(text, "{evaluations} evaluations")
}

// The lines that a word names, joined by commas.
fn lines_in(alloc: Global, word: &str) -> Result<Vec<LineId>> {
    let mut lines = Vec::new(alloc);
    for name in word.split(',') {
        lines.push(line_in(name)?)?;
    }
    Ok(lines)
}

// An error where some line is not a line of the facts.
fn are_lines(facts: &Facts, lines: &[LineId]) -> Result<()>
    ensures { OnOk result (All (HasLine facts.now) lines.now) }
{
    for line in lines {
        match line.axis {
            Axis::Across => ensure!(line.at < facts.height(), "no such row"),
            Axis::Down => ensure!(line.at < facts.width(), "no such column"),
        }
    }
    Ok(())
}

// Closes a book, with all lines waiting.
fn close_all<E: LineEngine, A: Agenda>(
    engine: &mut E,
    agenda: &mut A,
    book: Book,
    clues: &ClueBook,
    text: &mut String,
) -> Result<Book>
    requires { IsDerivation clues.now book }
    ensures { IfOk result (IsDerivation clues.now) }
{
    fits(engine, &book, clues)?;
    let dirty = all_lines(book.facts());
    let mut meter = NOTHING_DONE;
    let book = close(engine, agenda, book, clues, &dirty, &mut meter)?;
    push_count(text, &meter)?;
    Ok(book)
}

// Takes an edit, an undo or a redo, and keeps the steps of the book that stand.
fn keep_after(alloc: Global, desk: Desk, turn: &[&str], text: &mut String) -> Result<Desk> {
    let prepared = prepared_by(alloc, &desk.studio, turn_in(turn)?)?;
    let (clues, kept) = kept_of(alloc, &desk, &prepared)?;
    push_dirty(text, &kept.dirty)?;
    Ok(gone_on(desk, prepared, clues, kept.book))
}

// The desk after an edit.
fn gone_on(desk: Desk, prepared: Prepared, clues: ClueBook, book: Book) -> Desk
    requires plan { IsPlanFor desk.studio prepared }
    requires counted { clues ≡ clues_of prepared.document.rows }
    requires follows { IsDerivation clues book }
{
    let Desk { mut studio, .. } = desk;
    studio.commit(prepared);
    Desk {
        studio,
        clues,
        book,
    }
}

/// An edit, an undo or a redo.
#[derive(Drop)]
enum Turn {
    Edit(Edit),
    Undo,
    Redo,
}

// The turn of an edit in a session's words, `undo` or `redo`.
fn turn_in(words: &[&str]) -> Result<Turn> {
    match words {
        ["undo"] => Ok(Turn::Undo),
        ["redo"] => Ok(Turn::Redo),
        _ => Ok(Turn::Edit(edit_in(words)?)),
    }
}

// A turn, as the studio prepares it.
fn prepared_by(alloc: Global, studio: &Studio, turn: Turn) -> Result<Prepared>
    ensures plan { IfOk result (IsPlanFor studio.now) }
    ensures change { IfOk result
        (λ p. IsChangeOf p.change studio.now.document.rows p.document.rows) }
{
    let prepared = match turn {
        Turn::Edit(edit) => studio.prepare(alloc, &edit)?,
        Turn::Undo => studio.prepare_undo()?,
        Turn::Redo => studio.prepare_redo()?,
    };
    Ok(prepared)
}

// The clues after what was prepared, and what is kept of a book.
fn kept_of(alloc: Global, desk: &Desk, prepared: &Prepared) -> Result<(ClueBook, Kept)>
    requires change { IsChangeOf prepared.now.change desk.now.studio.document.rows
        prepared.now.document.rows }
    ensures counted { IfOk result (λ r. r.0 ≡ clues_of prepared.now.document.rows) }
    ensures follows { IfOk result (λ r. IsDerivation r.0 r.1.book) }
{
    clues_are_of_lines();
    let document = prepared.document();
    let new = ClueBook::of(alloc, &document.picture)?;
    let base = Facts::base(alloc, document)?;
    let Desk { clues, book, .. } = desk;
    let kept = keep(alloc, book, clues, &new, prepared.change(), base)?;
    Ok((new, kept))
}

// Appends the names of dirty lines to a text, as a line.
fn push_dirty(text: &mut String, dirty: &LineSet) -> Result<()> {
    text.push_str("dirty")?;
    push_lines(text, dirty)?;
    text.push('\n')?;
    Ok(())
}

// Appends the names of lines to a text.
fn push_lines(text: &mut String, lines: &LineSet) -> Result<()> {
    for axis in [Axis::Across, Axis::Down] {
        for at in 0..MAX_SIDE {
            let line = LineId { axis, at };
            if lines.has(line) {
                text.push(' ')?;
                push_line(text, line)?;
            }
        }
    }
    Ok(())
}
