//! What the lines of a tree do to the branches on a trail.

ghost use Rattle.std.specs.Prelude.{◌≡◌, ◌+◌, ◌++◌, ◌≤◌, length, IfOk, OnOk};
ghost use Rattle.line_facts.specs.FactSets.{SameShape};
ghost use Rattle.cert_check.specs.Puzzle.{HasCellNumber, HasLineNumber, IsForced, line_id, split_at};
ghost use Rattle.cert_check.specs.Walk.{CanCheck};
ghost use Rattle.assess.specs.Nesting.{Follows, IsAt};

use cert_text::{CellNumber, CertLine, LineNumber};
use clues::ClueBook;
use fixpoint::all_lines;
use line_facts::{LineEngine, force};
use picture::{LineId, Picture};
use std::alloc::AllocError;
use trail::{Cell, Trail};

// Takes a line of a tree, and answers how many branches it leads to. A line that no tree has, or that names no place of the
// picture, may lead anywhere.
pub(crate) fn follow<E: LineEngine>(
    trail: &mut Trail,
    engine: &mut E,
    picture: &Picture,
    clues: &ClueBook,
    line: CertLine,
) -> Result<usize, AllocError>
    requires can { CanCheck picture.now clues.now (E.longest engine.old) }
    requires same_shape { SameShape picture.now trail.old.at_hand }
    ensures same_shape { OnOk result (SameShape picture.now trail.new.at_hand) }
    ensures follows { IfOk result
        (λ begun. Follows picture.now trail.old line begun trail.new) }
    ensures few { E.calls engine.new ≤ E.calls engine.old + 1 }
    ensures calls { E.calls engine.old ≤ E.calls engine.new }
    ensures same_longest { E.longest engine.new ≡ E.longest engine.old }
{
    match line {
        CertLine::Line(at) => {
            force_line(trail, engine, picture, clues, at)?;
            Ok(1)
        }
        CertLine::Split(at) => split(trail, picture, at),
        _ => {
            go_on(trail)?;
            Ok(0)
        }
    }
}

// The branch goes on with what a line forces.
fn force_line<E: LineEngine>(
    trail: &mut Trail,
    engine: &mut E,
    picture: &Picture,
    clues: &ClueBook,
    at: LineNumber,
) -> Result<(), AllocError>
    requires can { CanCheck picture.now clues.now (E.longest engine.old) }
    requires same_shape { SameShape picture.now trail.old.at_hand }
    ensures same_shape { OnOk result (SameShape picture.now trail.new.at_hand) }
    ensures forced { OnOk result (HasLineNumber picture.now at
        → IsForced picture.now trail.old.at_hand (line_id at) trail.new.at_hand) }
    ensures behind { OnOk result (trail.new.behind ≡ trail.old.behind) }
    ensures few { E.calls engine.new ≤ E.calls engine.old + 1 }
    ensures calls { E.calls engine.old ≤ E.calls engine.new }
    ensures same_longest { E.longest engine.new ≡ E.longest engine.old }
{
    let _ = engine.calls();
    if at.number == 0 || at.number > u16::from(picture.line_count(at.axis)) {
        return Ok(());
    }
    let line = LineId {
        axis: at.axis,
        at: (at.number - 1) as u8,
    };
    let mut facts = trail.at_hand().copy()?;
    let _outcome = force(engine, &mut facts, clues.clue(line), line, &mut 0);
    trail.narrow(&facts, &all_lines(&facts))
}

// A branch begins for each colour that is left in the cell.
fn split(trail: &mut Trail, picture: &Picture, at: CellNumber) -> Result<usize, AllocError>
    requires same_shape { SameShape picture.now trail.old.at_hand }
    ensures same_shape { OnOk result (SameShape picture.now trail.new.at_hand) }
    ensures begun { IfOk result (λ begun. HasCellNumber picture.now at
        → begun ≡ length (split_at trail.old.at_hand at)) }
    ensures at { OnOk result (HasCellNumber picture.now at
        → IsAt trail.new (split_at trail.old.at_hand at ++ trail.old.behind)) }
{
    let (height, width) = (u16::from(picture.height()), u16::from(picture.width()));
    if at.row == 0 || at.row > height || at.col == 0 || at.col > width {
        return Ok(0);
    }
    let cell = Cell {
        row: (at.row - 1) as u8,
        col: (at.col - 1) as u8,
    };
    let begun = trail.at_hand().left(cell.row, cell.col).count_ones();
    trail.split(cell)?;
    go_on(trail)?;
    Ok(begun as usize)
}

// Goes on to the next branch that waits, if there is one.
fn go_on(trail: &mut Trail) -> Result<(), AllocError>
    ensures at { OnOk result (IsAt trail.new trail.old.behind) }
    ensures same_shape { OnOk result (SameShape trail.old.at_hand trail.new.at_hand) }
{
    let _cell = trail.advance()?;
    Ok(())
}
