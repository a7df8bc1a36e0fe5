//! Looking ahead: each colour of a cell is tried, that is, the cell is held to it and the facts are closed.

ghost use Rattle.std.specs.Prelude.{◌≡◌, ◌<◌, ◌≤◌, length, max, IsTrue};
ghost use Rattle.picture.specs.Rows.{width_of};

use crate::filling::{fills_all, held_at, is_filled, is_there};
use crate::puzzle::{Node, Puzzle};
use clues::ClueBook;
use fixpoint::{Agenda, InOrder};
use line_facts::{Facts, LineEngine, Outcome, force_crossing};
use picture::{LineSet, MAX_COLOURS};
use std::alloc::AllocError;
use trail::Cell;

// No trial evaluates more lines, as each colour of each cell is excluded at most once, and no set of lines has more names.
const MOST_LINES: u32 = 10_000_000;

/// The result of trying each colour of a cell; or facts that the held picture's colours fill.
#[derive(Drop)]
pub(crate) enum Look {
    Seen(Tally),
    Fills(Facts),
}

/// How many tried colours live, the sum and the product of their changes, and whether some colour dies (leaves a dead line).
#[derive(Clone, Copy)]
pub(crate) struct Tally {
    pub alive: u64,
    pub sum: u64,
    pub product: u64,
    pub dies: bool,
}

impl Tally {
    // Counts one more colour that lives, by how many cells it changed.
    fn lives(&mut self, changes: usize) {
        let changes = changes as u64;
        self.alive = self.alive.saturating_add(1);
        self.sum = self.sum.saturating_add(changes);
        self.product = self.product.saturating_mul(changes);
    }

    /// How much the cell tells: more where the colours that live narrow more, and four times that where one dies.
    pub(crate) fn worth(&self) -> u64 {
        let narrows = match self.alive {
            0 | 1 => self.sum,
            2 => self.product,
            alive => self.sum.saturating_mul(self.sum) / alive.saturating_mul(alive).max(1),
        };
        let times = if self.dies { 4 } else { 1 };
        narrows.saturating_mul(times)
    }
}

/// Tries each colour of a cell, but not that of the held picture where that picture still fills the facts. Once the engine has
/// counted `until` calls, it is not called again.
pub(crate) fn look_at<E: LineEngine>(
    engine: &mut E,
    node: &Node,
    cell: Cell,
    until: u64,
) -> Result<Look, AllocError>
    ensures calls { E.calls engine.old ≤ E.calls engine.new }
    ensures few { E.calls engine.new ≤ max (E.calls engine.old) until }
    ensures same_longest { E.longest engine.new ≡ E.longest engine.old }
{
    let mut tally = Tally {
        alive: 0,
        sum: 0,
        product: 1,
        dies: false,
    };
    for colour in 0..MAX_COLOURS {
        if !is_tried(node, cell, colour) {
            continue;
        }
        let mut trial = node.facts.copy()?;
        trial.set_left(cell.row, cell.col, 1 << colour);
        match settle(engine, node.puzzle.clues, &mut trial, cell, until) {
            None => tally.dies = true,
            Some(settled) if is_all_filled(&node.puzzle, &trial, &settled.touched) => {
                return Ok(Look::Fills(trial));
            }
            Some(settled) => tally.lives(settled.changes),
        }
    }
    Ok(Look::Seen(tally))
}

// Whether a colour is left in a cell, and is not that of the held picture where that picture still fills the facts.
fn is_tried(node: &Node, cell: Cell, colour: u8) -> bool
    requires { colour < MAX_COLOURS }
    ensures in_rows { IsTrue result → cell.row < length node.now.facts.now }
    ensures in_columns { IsTrue result → cell.col < width_of node.now.facts.now }
{
    if cell.row >= node.facts.height()
        || cell.col >= node.facts.width()
        || node.facts.excluded(cell.row, cell.col, colour)
    {
        return false;
    }
    !node.own || held_at(node.puzzle.held, cell.row, cell.col) != colour
}

// What a trial changed: the lines through the held cell or a changed one, and how many cells the evaluations changed in all.
#[derive(Clone, Copy)]
struct Settled {
    touched: LineSet,
    changes: usize,
}

// Closes facts in which a cell was held, beginning with its two lines, or stops with what it has once the engine has counted
// `until` calls. None where a line is dead. Lines without a clue, or longer than the engine takes, are skipped.
fn settle<E: LineEngine>(
    engine: &mut E,
    clues: &ClueBook,
    facts: &mut Facts,
    cell: Cell,
    until: u64,
) -> Option<Settled>
    ensures calls { E.calls engine.old ≤ E.calls engine.new }
    ensures few { E.calls engine.new ≤ max (E.calls engine.old) until }
    ensures same_longest { E.longest engine.new ≡ E.longest engine.old }
{
    let mut agenda = InOrder::make();
    let mut settled = Settled {
        touched: cell.lines(),
        changes: 0,
    };
    agenda.put_all(&settled.touched);
    for _ in 0..MOST_LINES {
        if engine.calls() >= until {
            return Some(settled);
        }
        let Some(line) = agenda.take() else {
            return Some(settled);
        };
        if !is_there(clues, facts, line) || facts.line_len(line) > engine.longest() {
            continue;
        }
        let mut count = 0;
        let forced = force_crossing(engine, facts, clues.clue(line), line, &mut count);
        if forced.outcome == Outcome::Dead {
            return None;
        }
        agenda.put_all(&forced.changed);
        settled.touched.put_all(&forced.changed);
        settled.changes = settled.changes.saturating_add(forced.changed.len());
    }
    Some(settled)
}

// Whether the held picture's colours fill all lines. Those that were touched are checked first.
fn is_all_filled(puzzle: &Puzzle, facts: &Facts, touched: &LineSet) -> bool {
    let mut agenda = InOrder::make();
    agenda.put_all(touched);
    for _ in 0..MOST_LINES {
        let Some(line) = agenda.take() else {
            break;
        };
        if !is_filled(puzzle, facts, line) {
            return false;
        }
    }
    fills_all(puzzle, facts)
}
