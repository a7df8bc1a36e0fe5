//! A part grown from its first cell, line by line.

ghost use Rattle.std.specs.Prelude.{◌≡◌, ℕ, ◌+◌, ◌<◌, ◌⊎◌, ◌↔◌, length, MatchOption};
ghost use Rattle.picture.specs.CellSet.{HasCell, IsCellSet};
ghost use Rattle.picture.specs.LineSet.{HasName, IsClearFrom, name_count};
ghost use Rattle.picture.specs.Rows.{width_of, line_of, HasLine};
ghost use Rattle.second_search.specs.GrownParts.{HasOpenCellsOf, IsGrown, Leaves, TakesIn};
ghost use Rattle.second_search.specs.Parts.{IsChained, IsOpenCell};

use crate::parts::open_cells::is_open;
use fixpoint::all_lines;
use line_facts::Facts;
use picture::{Axis, CellSet, LineId, LineSet, MAX_SIDE};
use trail::Cell;

// The cells found so far, the lines through them that are still to be visited, and all lines that were not visited yet.
#[derive(Drop)]
pub(crate) struct Growth {
    cells: CellSet,
    waiting: LineSet,
    unvisited: LineSet,
}

// The cells that are chained to an open cell.
pub(crate) fn part_of(facts: &Facts, cell: Cell) -> CellSet
    requires in_rows { cell.row < length facts.now }
    requires in_columns { cell.col < width_of facts.now }
    requires is_open { IsOpenCell facts.now cell.row cell.col }
    ensures set { IsCellSet result }
    ensures members { (r c : ℕ) → HasCell result r c ↔ IsChained facts.now cell.row cell.col r c }
{
    let mut growth = Growth::start(facts, cell);
    while let Some(line) = growth.next_line() {
        growth.gather(facts, line);
        growth.leave(line);
    }
    let _ = growth.cells.len();
    growth.cells
}

impl Growth {
    // A cell alone, with both its lines to be visited.
    fn start(facts: &Facts, cell: Cell) -> Growth
        requires in_rows { cell.row < length facts.now }
        requires in_columns { cell.col < width_of facts.now }
        requires is_open { IsOpenCell facts.now cell.row cell.col }
        ensures { IsGrown facts.now cell.row cell.col result }
    {
        let mut growth = Growth {
            cells: CellSet::empty(),
            waiting: LineSet::empty(),
            unvisited: all_lines(facts),
        };
        let _ = facts.height();
        growth.take_in(cell);
        growth
    }

    // Takes in a cell. Its lines wait unless they were visited.
    fn take_in(&mut self, cell: Cell)
        requires in_rows { cell.row < MAX_SIDE }
        requires in_columns { cell.col < MAX_SIDE }
        ensures { TakesIn cell.row cell.col self.old self.new }
    {
        self.cells.put(cell.row, cell.col);
        self.wait_for(LineId {
            axis: Axis::Across,
            at: cell.row,
        });
        self.wait_for(LineId {
            axis: Axis::Down,
            at: cell.col,
        });
    }

    // Lets a line wait, unless it was visited.
    fn wait_for(&mut self, line: LineId)
        requires { line.at < MAX_SIDE }
        ensures waiting { (other : LineId) → HasName self.new.waiting other
            ↔ (HasName self.old.waiting other
            ⊎ (HasName self.old.unvisited other × (other ≡ line))) }
        ensures cells { self.new.cells ≡ self.old.cells }
        ensures unvisited { self.new.unvisited ≡ self.old.unvisited }
    {
        if self.unvisited.has(line) {
            self.waiting.put(line);
        }
    }

    // A line that waits, if there is one.
    fn next_line(&self) -> Option<LineId>
        ensures { MatchOption
            result
            ((line : LineId) → HasName self.now.waiting line → ⊥)
            (λ line. (line.at < MAX_SIDE) × HasName self.now.waiting line) }
    {
        match self.waiting.first_from(Axis::Across, 0) {
            Some(at) => Some(LineId {
                axis: Axis::Across,
                at,
            }),
            None => self.next_column(),
        }
    }

    // A column that waits, if there is one.
    fn next_column(&self) -> Option<LineId>
        requires { IsClearFrom self.now.waiting.rows 0 }
        ensures { MatchOption
            result
            ((line : LineId) → HasName self.now.waiting line → ⊥)
            (λ line. (line.at < MAX_SIDE) × HasName self.now.waiting line) }
    {
        let at = self.waiting.first_from(Axis::Down, 0)?;
        Some(LineId {
            axis: Axis::Down,
            at,
        })
    }

    // Takes in the open cells of a line that waits.
    fn gather(&mut self, facts: &Facts, line: LineId)
        requires has { HasLine facts.now line }
        requires waits { HasName self.old.waiting line }
        ensures grown { (row col : ℕ) → IsGrown facts.now row col self.old
            → IsGrown facts.now row col self.new }
        ensures open_cells { HasOpenCellsOf facts.now line self.new.cells }
        ensures unvisited { self.new.unvisited ≡ self.old.unvisited }
    {
        for i in 0..facts.line_len(line) {
            let cell = Cell::on(line, i);
            if is_open(facts, cell) {
                self.take_in(cell);
            }
        }
    }

    // Marks a line as visited.
    fn leave(&mut self, line: LineId)
        requires near { line.at < MAX_SIDE }
        requires unvisited { HasName self.old.unvisited line }
        ensures leaves { Leaves line self.old self.new }
        ensures fewer { name_count self.new.unvisited + 1 ≡ name_count self.old.unvisited }
    {
        self.waiting.take_out(line);
        self.unvisited.take_out(line);
    }
}
