//! The path of line logic on a puzzle: its looks that excluded something.

ghost use Rattle.std.specs.Prelude.{◌≡◌, ◌≤◌, List, length, IfOk};
ghost use Rattle.fixpoint.specs.ClosedFacts.{AreClosable};
ghost use Rattle.grade.specs.Figures.{open_cells};
ghost use Rattle.grade.specs.Looks.{Look};
ghost use Rattle.grade.specs.Needs.{AreLeft};
ghost use Rattle.grade.specs.Paths.{IsPath, Makes};
ghost use Rattle.grade.specs.Runs.{IsRun};

use crate::figures::open_cells;
use crate::look::Advance;
use crate::seen::Seen;
use crate::walk::Walk;
use clues::{Clue, ClueBook};
use line_facts::{Facts, LineEngine};
use std::alloc::{AllocError, Global};

/// The looks of a run that excluded something, in order, the facts at its end, and how many of their cells are open.
#[derive(Drop)]
pub struct Path {
    pub looks: Vec<Advance>,
    pub facts: Facts,
    pub open: u64,
}

/// Runs line logic as `grade_lines` does, and writes down each look that excluded something, with what it needs.
pub fn make_path<E: LineEngine>(
    alloc: Global,
    engine: &mut E,
    facts: Facts,
    book: &ClueBook,
) -> Result<Path, AllocError>
    requires { AreClosable book.now (E.longest engine.old) facts }
    ensures path { IfOk result (λ path. (looks : List Look) × IsRun book.now facts looks path.facts
        × IsPath book.now looks path.looks.items) }
    ensures open_cells { IfOk result (λ path. path.«open» ≡ open_cells path.facts) }
    ensures calls { E.calls engine.old ≤ E.calls engine.new }
    ensures same_longest { E.longest engine.new ≡ E.longest engine.old }
{
    let _ = engine.calls();
    let mut facts = facts;
    let mut walk = Walk::start(&facts);
    let mut looks = Vec::new(alloc);
    while let Some(seen) = walk.look(engine, &mut facts, book) {
        if seen.excluded() != 0 {
            looks.push(advance(alloc, &seen, book.clue(seen.turn.line))?)?;
        }
    }
    let open = open_cells(&facts);
    Ok(Path { looks, facts, open })
}

// What a look made.
fn advance(alloc: Global, seen: &Seen, clue: &Clue) -> Result<Advance, AllocError>
    requires same_length { length seen.now.after ≡ length seen.now.before }
    requires left { AreLeft clue.now seen.now.before seen.now.after }
    ensures { IfOk result (Makes clue.now seen.now.turn.line seen.now.turn.round seen.now.before
        seen.now.after) }
{
    let falls = seen.falls(alloc)?;
    let premises = seen.premises(alloc, clue)?;
    let turn = seen.turn;
    let (excluded, stands) = (seen.excluded(), seen.stands(clue));
    Ok(Advance::make(turn.line, turn.round, excluded, falls, stands, premises))
}
