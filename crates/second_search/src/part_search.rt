//! The search of one part: the facts on it, with only the picture's colours left elsewhere, and the lines through its cells.

ghost use Rattle.std.specs.Prelude.{◌≡◌, ◌-◌, ◌<◌, ◌≤◌, ℕ, length, IfOk, OnOk};
ghost use Rattle.picture.specs.Rows.{width_of};
ghost use Rattle.line_facts.specs.FactSets.{SameShape};
ghost use Rattle.fixpoint.specs.LineNames.{AreLinesOf};
ghost use Rattle.second_search.specs.Parts.{IsPart};
ghost use Rattle.second_search.specs.FixedOrder.{EndsAs, IsCalled, KeepsOutside, alone, raised};
ghost use Rattle.second_search.specs.Through.{LeavesRowAlone, PutsBoth, PutsRow, PutsThrough};
ghost use Rattle.second_search.specs.Scene.{CanSearch, IsWhole};
ghost use Rattle.second_search.specs.Evaluations.{AreFew};

use crate::counting::{Searched, Start, search_counted};
use crate::scene::Scene;
use line_facts::{Facts, LineEngine};
use picture::{Axis, CellSet, LineId, LineSet, MAX_SIDE, Picture};
use std::alloc::{AllocError, Global};

// Searches one part for another filling. Only the lines through the part are evaluated.
pub(crate) fn search_part<E: LineEngine>(
    alloc: Global,
    engine: &mut E,
    scene: &Scene,
    cells: &CellSet,
    allowance: Option<u32>,
) -> Result<Searched, AllocError>
    requires can { CanSearch scene.now (E.longest engine.old) }
    requires part { IsPart scene.now.facts.now cells.now }
    ensures ends { IfOk result (λ searched. (n : ℕ) × ((searched.splits ≡ raised 0 n)
        × EndsAs scene.now.clues.now scene.now.picture.now
        (alone cells.now scene.now.facts.now scene.now.picture.now) allowance searched.ending n)) }
    ensures calls { E.calls engine.old ≤ E.calls engine.new }
    ensures called { OnOk result (IsCalled (E.calls engine.old) (E.calls engine.new)) }
    ensures few { AreFew allowance scene.now.facts.now 1 (E.calls engine.new - E.calls engine.old) }
    ensures same_longest { E.longest engine.new ≡ E.longest engine.old }
{
    let _ = scene.facts.height();
    let start = Start {
        facts: facts_on(scene, cells)?,
        lines: lines_through(cells, scene.facts),
        allowance,
    };
    search_counted(alloc, engine, scene.clues, scene.picture, start)
}

// The names of the lines that go through some cells.
pub(crate) fn lines_through(cells: &CellSet, facts: &Facts) -> LineSet
    ensures lines { AreLinesOf facts.now result }
    ensures through { PutsThrough cells.now facts.now result (length facts.now) }
{
    let mut lines = LineSet::empty();
    for row in 0..facts.height() {
        put_through(cells, facts, row, &mut lines);
    }
    lines
}

// Puts the names of the lines that go through some cells of a row into a set.
fn put_through(cells: &CellSet, facts: &Facts, row: u8, lines: &mut LineSet)
    requires in_rows { row < length facts.now }
    requires lines { AreLinesOf facts.now lines.old }
    ensures lines { AreLinesOf facts.now lines.new }
    ensures puts { PutsRow cells.now row (width_of facts.now) lines.old lines.new }
{
    for col in 0..facts.width() {
        if cells.has(row, col) {
            put_both(lines, row, col);
        }
    }
}

// The facts of a scene on some cells, with only the picture's colours left elsewhere.
pub(crate) fn facts_on(scene: &Scene, cells: &CellSet) -> Result<Facts, AllocError>
    requires { IsWhole scene.now }
    ensures alone { IfOk result
        (λ facts. facts ≡ alone cells.now scene.now.facts.now scene.now.picture.now) }
    ensures outside { IfOk result (KeepsOutside cells.now scene.now.picture.now) }
{
    let mut facts = scene.facts.copy()?;
    for row in 0..scene.facts.height() {
        leave_row_alone(&mut facts, scene.picture, cells, row);
    }
    Ok(facts)
}

// Leaves only the picture's colours in one row, outside of some cells.
fn leave_row_alone(facts: &mut Facts, picture: &Picture, cells: &CellSet, row: u8)
    requires same_shape { SameShape picture.now facts.old }
    requires in_rows { row < length facts.old }
    ensures { LeavesRowAlone cells.now picture.now facts.old facts.new row (width_of facts.old) }
{
    for col in 0..facts.width() {
        if !cells.has(row, col) {
            facts.set_left(row, col, 1 << picture.cell(row, col));
        }
    }
}

// Puts the names of the lines through a cell into a set.
pub(crate) fn put_both(lines: &mut LineSet, row: u8, col: u8)
    requires in_rows { row < MAX_SIDE }
    requires in_columns { col < MAX_SIDE }
    ensures { PutsBoth row col lines.old lines.new }
{
    lines.put(LineId {
        axis: Axis::Across,
        at: row,
    });
    lines.put(LineId {
        axis: Axis::Down,
        at: col,
    });
}
