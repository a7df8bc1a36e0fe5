//! What is known of a part, carried to another scene, and the lines that are the same in both.

ghost use Rattle.std.specs.Prelude.{◌≡◌, ℕ, ◌<◌, ◌↔◌, length, IfOk, IsTrue, MatchOption};
ghost use Rattle.picture.specs.CellSet.{HasCell};
ghost use Rattle.picture.specs.Rows.{lines_along, line_of, width_of, HasLine};
ghost use Rattle.second_search.specs.CarriedParts.{AreSameLines, HoldsCells, LieInside, NamesAlong, NamesThrough, PutsRowOn, PutsSame, carried};
ghost use Rattle.second_search.specs.Parts.{GoesThrough, IsSameLine, picked};
ghost use Rattle.second_search.specs.Scene.{IsWhole, board_of};

use crate::keeper::Answer;
use crate::scene::Scene;
use line_facts::Facts;
use picture::{Axis, CellSet, LineId, LineSet, LineView, Picture};
use std::alloc::AllocError;
use trail::Cell;

// What is known of a part, carried to a scene with another picture: another filling gets that picture's colours elsewhere.
pub(crate) fn answer_for(
    answer: &Answer,
    cells: &CellSet,
    picture: &Picture,
) -> Result<Answer, AllocError>
    requires { HoldsCells cells.now answer.now }
    ensures { IfOk result (λ known. known ≡ carried cells.now picture.now answer.now) }
{
    match answer {
        Answer::Unknown => Ok(Answer::Unknown),
        Answer::Nothing => Ok(Answer::Nothing),
        Answer::Filling(other) => {
            let mut filling = picture.copy()?;
            put_on(cells, other, &mut filling);
            Ok(Answer::Filling(filling))
        }
    }
}

#[tactic(auto, using(crate::proofs::CarryLemmas::is_picked))]
// Puts the colours of a picture on some cells of another.
fn put_on(cells: &CellSet, other: &Picture, picture: &mut Picture)
    requires { LieInside cells.now other.now }
    ensures { picture.new ≡ picked cells.now other.now picture.old }
{
    for row in 0..picture.height() {
        put_row_on(cells, other, picture, row);
    }
}

// Copies the colours of `other` to `picture` in those of `cells` that lie in one row.
fn put_row_on(cells: &CellSet, other: &Picture, picture: &mut Picture, row: u8)
    requires inside { LieInside cells.now other.now }
    requires in_rows { row < length picture.old }
    ensures { PutsRowOn cells.now other.now picture.old picture.new row (width_of picture.old) }
{
    for col in 0..picture.width() {
        if cells.has(row, col) {
            picture.set(row, col, other.cell(row, col));
        }
    }
}

// Whether each line through some cells is among some names.
pub(crate) fn are_named(names: &LineSet, cells: &CellSet, facts: &Facts) -> bool
    requires { LieInside cells.now facts.now }
    ensures { IsTrue result ↔ NamesThrough names.now cells.now }
{
    let _ = facts.height();
    are_named_along(names, cells, facts, Axis::Across)
        && are_named_along(names, cells, facts, Axis::Down)
}

// Whether each line along an axis that goes through some cells is among some names.
fn are_named_along(names: &LineSet, cells: &CellSet, facts: &Facts, axis: Axis) -> bool
    requires { LieInside cells.now facts.now }
    ensures { IsTrue result ↔ NamesAlong names.now cells.now axis (lines_along axis facts.now) }
{
    let count = match axis {
        Axis::Across => facts.height(),
        Axis::Down => facts.width(),
    };
    for at in 0..count {
        let line = LineId { axis, at };
        if !names.has(line) && goes_through(line, cells, facts) {
            return false;
        }
    }
    true
}

// Whether a line goes through one of some cells.
fn goes_through(line: LineId, cells: &CellSet, facts: &Facts) -> bool
    requires inside { LieInside cells.now facts.now }
    requires has { HasLine facts.now line }
    ensures { IsTrue result ↔ GoesThrough line cells.now }
{
    for i in 0..facts.line_len(line) {
        let cell = Cell::on(line, i);
        if cells.has(cell.row, cell.col) {
            return true;
        }
    }
    false
}

// The first of some cells in row order.
pub(crate) fn first_cell(cells: &CellSet, facts: &Facts) -> Option<Cell>
    ensures { MatchOption
        result
        ((row col : ℕ) → row < length facts.now → col < width_of facts.now
        → HasCell cells.now row col → ⊥)
        (λ cell. (cell.row < length facts.now)
        × ((cell.col < width_of facts.now) × HasCell cells.now cell.row cell.col)) }
{
    for row in 0..facts.height() {
        if let Some(cell) = first_in_row(cells, facts, row) {
            return Some(cell);
        }
    }
    None
}

// The first of the cells in a row.
fn first_in_row(cells: &CellSet, facts: &Facts, row: u8) -> Option<Cell>
    requires { row < length facts.now }
    ensures { MatchOption
        result
        ((col : ℕ) → col < width_of facts.now → HasCell cells.now row col → ⊥)
        (λ cell. (cell.row < length facts.now)
        × ((cell.col < width_of facts.now) × HasCell cells.now cell.row cell.col)) }
{
    for col in 0..facts.width() {
        if cells.has(row, col) {
            return Some(Cell { row, col });
        }
    }
    None
}

// The names of the lines that are the same in two scenes.
pub(crate) fn same_lines(before: &Scene, after: &Scene) -> LineSet
    requires before { IsWhole before.now }
    requires after { IsWhole after.now }
    ensures { AreSameLines (board_of before.now) (board_of after.now) result }
{
    let mut lines = LineSet::empty();
    put_same(before, after, Axis::Across, &mut lines);
    put_same(before, after, Axis::Down, &mut lines);
    lines
}

#[tactic(auto, using(crate::proofs::CarryLemmas::few_lines))]
// Puts the names of the lines along an axis that are the same in two scenes into a set.
fn put_same(before: &Scene, after: &Scene, axis: Axis, lines: &mut LineSet)
    requires before { IsWhole before.now }
    requires after { IsWhole after.now }
    ensures { PutsSame (board_of before.now) (board_of after.now) axis
        (lines_along axis after.now.picture.now) lines.old lines.new }
{
    for at in 0..after.picture.line_count(axis) {
        let line = LineId { axis, at };
        if is_same_line(before, after, line) {
            lines.put(line);
        }
    }
}

#[tactic(auto, using(clues::proofs::LawLemmas::of_lines))]
// Whether a line of the scene after is the same in both.
fn is_same_line(before: &Scene, after: &Scene, line: LineId) -> bool
    requires before { IsWhole before.now }
    requires after { IsWhole after.now }
    requires has { HasLine after.now.picture.now line }
    ensures { IsTrue result ↔ IsSameLine (board_of before.now) (board_of after.now) line }
{
    if line.at >= before.picture.line_count(line.axis) {
        return false;
    }
    let same_clue = before.clues.clue(line).same(after.clues.clue(line));
    let same_left = before.facts.same_line(line, after.facts, line);
    let same_cells = has_same_cells(before.picture.line(line), after.picture.line(line));
    same_clue && same_left && same_cells
}

// Whether two lines have the same cells.
fn has_same_cells(one: LineView<'_>, other: LineView<'_>) -> bool
    ensures { IsTrue result ↔ (one.entry ≡ other.entry) }
{
    if one.len() != other.len() {
        return false;
    }
    for place in 0..one.len() {
        if one.get(place) != other.get(place) {
            return false;
        }
    }
    true
}
