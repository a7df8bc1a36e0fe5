//! Why a line excludes colours: each exclusion that it can do without is dropped, the latest first.

ghost use Rattle.std.specs.Prelude.{◌<◌, ◌≤◌};

use crate::atom::{Atom, Literal, bit, first_colour, without_first};
use crate::automaton::{Automaton, START};
use crate::marks::{Marks, NEVER};
use picture::{Axis, LineId, MAX_COLOURS};
use std::alloc::{AllocError, Global};
use trail::Cell;

// How many cells a line can have.
const MOST_CELLS: u8 = 127;

/// An evaluation of a line: only what the events before `before` excluded counts, and what those before `root` excluded needs no
/// reason.
#[derive(Clone, Copy, Debug, PartialEq, Eq)]
pub(crate) struct Question {
    pub line: LineId,
    pub cells: u8,
    pub before: u32,
    pub root: u32,
}

// A cell in a question: the colours that may be there, and those whose exclusion may be needed.
#[derive(Clone, Copy)]
struct Seen {
    open: u16,
    gone: u16,
}

const UNSEEN: Seen = Seen { open: 0, gone: 0 };

impl Question {
    // A cell as the question sees it, and the times of the events that may be needed.
    fn see(
        self,
        marks: &Marks,
        at: u8,
        own: u16,
        times: &mut Vec<u32>,
    ) -> Result<Seen, AllocError> {
        let cell = Cell::on(self.line, at);
        let mut seen = UNSEEN;
        seen.open = marks.left(cell);
        let mut rest = own & !seen.open;
        for _ in 0..MAX_COLOURS {
            if rest == 0 {
                break;
            }
            let colour = first_colour(rest);
            rest = without_first(rest);
            let when = marks.when(Atom { cell, colour });
            if self.root <= when && when < self.before {
                seen.gone |= bit(colour);
                times.push(when)?;
            } else if self.before <= when && when != NEVER {
                seen.open |= bit(colour);
            }
        }
        Ok(seen)
    }
}

// The place of a cell along a line.
fn place_on(line: LineId, cell: Cell) -> u8 {
    match line.axis {
        Axis::Across => cell.col,
        Axis::Down => cell.row,
    }
}

/// The evaluation that was asked about last, its cells as it saw them and as the question at hand leaves them, the events that may be
/// needed, and for each cell the states with which the line can come to it, and those behind it from which the line can end.
#[derive(Drop)]
pub(crate) struct Sweep {
    question: Option<Question>,
    whole: [Seen; 128],
    times: Vec<u32>,
    seen: [Seen; 128],
    from: [u128; 128],
    behind: [u128; 128],
}

impl Sweep {
    /// Nothing asked yet.
    pub(crate) fn new(alloc: Global) -> Sweep {
        Sweep {
            question: None,
            whole: [UNSEEN; 128],
            times: Vec::new(alloc),
            seen: [UNSEEN; 128],
            from: [0; 128],
            behind: [0; 128],
        }
    }

    /// Forgets what was asked: from now on events may be others.
    pub(crate) fn forget(&mut self) {
        self.question = None;
    }

    fn cells(&self) -> u8
        ensures { result ≤ MOST_CELLS }
    {
        match self.question {
            Some(question) => question.cells.min(MOST_CELLS),
            None => 0,
        }
    }

    /// Looks at the cells of an evaluation, if it is not the one that was asked about last.
    pub(crate) fn see(
        &mut self,
        automaton: &Automaton,
        marks: &Marks,
        question: Question,
    ) -> Result<(), AllocError> {
        if self.question == Some(question) {
            return Ok(());
        }
        self.question = Some(question);
        self.times.clear();
        let own = automaton.own();
        for place in 0..self.cells() {
            let seen = question.see(marks, place, own, &mut self.times)?;
            self.whole[usize::from(place)] = seen;
        }
        self.times.sort_unstable();
        self.times.dedup();
        Ok(())
    }

    /// Asks why a cell loses the colours of a literal, or, of None, why no colours fit at all.
    pub(crate) fn ask(&mut self, automaton: &Automaton, of: Option<Literal>) {
        self.seen = self.whole;
        if let (Some(question), Some(gone)) = (self.question, of) {
            let place = place_on(question.line, gone.cell);
            if place < self.cells() {
                self.seen[usize::from(place)] = UNSEEN;
                self.seen[usize::from(place)].open = gone.colours;
            }
        }
        self.come(automaton, 0, START, false);
        self.end(automaton, self.cells(), automaton.ends, false);
    }

    /// Drops the exclusions that the answer can do without, the latest first.
    pub(crate) fn drop_all(&mut self, automaton: &Automaton, marks: &Marks) {
        for i in (0..self.times.len()).rev() {
            let at = self.times.get(i).copied().unwrap_or(NEVER);
            if let (Some(question), Some(event)) = (self.question, marks.event(at)) {
                let place = place_on(question.line, event.gone.cell);
                if place < self.cells() {
                    self.drop_at(automaton, place, event.gone.colours);
                }
            }
        }
    }

    // Drops the exclusions of some colours of a cell, where the answer can do without them.
    fn drop_at(&mut self, automaton: &Automaton, place: u8, colours: u16)
        requires { place < MOST_CELLS }
    {
        let at = usize::from(place);
        let mut cell = self.seen[at];
        let tried = cell.gone & colours;
        let dropped = droppable(automaton, tried, self.from[at], self.behind[at]);
        if dropped != 0 {
            cell.open |= dropped;
            cell.gone &= !dropped;
            self.seen[at] = cell;
            let from = automaton.forward(cell.open, self.from[at]);
            self.come(automaton, place + 1, from, true);
            let to = automaton.backward(cell.open, self.behind[at]);
            self.end(automaton, place, to, true);
        }
    }

    // Finds with which states the line can come to the cells from a place on; if it does so again, as far as they change.
    fn come(&mut self, automaton: &Automaton, first: u8, mut from: u128, again: bool) {
        for place in first..self.cells() {
            let at = usize::from(place);
            if again && self.from[at] == from {
                break;
            }
            self.from[at] = from;
            from = automaton.forward(self.seen[at].open, from);
        }
    }

    // Finds from which states behind each of the first cells the line can end; if it does so again, as far as they change.
    fn end(&mut self, automaton: &Automaton, cells: u8, mut to: u128, again: bool)
        requires { cells ≤ MOST_CELLS }
    {
        for place in (0..cells).rev() {
            let at = usize::from(place);
            if again && self.behind[at] == to {
                break;
            }
            self.behind[at] = to;
            to = automaton.backward(self.seen[at].open, to);
        }
    }

    /// Adds the exclusions that are left to the premises.
    pub(crate) fn tell(&self, premises: &mut Vec<Atom>) -> Result<(), AllocError> {
        let Some(Question { line, .. }) = self.question else {
            return Ok(());
        };
        for place in 0..self.cells() {
            let mut gone = self.seen[usize::from(place)].gone;
            for _ in 0..MAX_COLOURS {
                if gone == 0 {
                    break;
                }
                let colour = first_colour(gone);
                gone = without_first(gone);
                let cell = Cell::on(line, place);
                premises.push(Atom { cell, colour })?;
            }
        }
        Ok(())
    }
}

// The colours of a cell by which the line cannot end, if it comes to the cell with `from` and has to leave it with `behind`.
fn droppable(automaton: &Automaton, tried: u16, from: u128, behind: u128) -> u16 {
    let mut dropped = 0;
    let mut rest = tried;
    for _ in 0..MAX_COLOURS {
        if rest == 0 {
            break;
        }
        let colour = bit(first_colour(rest));
        rest = without_first(rest);
        if automaton.forward(colour, from) & behind == 0 {
            dropped |= colour;
        }
    }
    dropped
}
