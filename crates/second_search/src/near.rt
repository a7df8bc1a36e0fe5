//! Near pictures: other pictures that differ from the known one only inside one window of a part.

ghost use Rattle.std.specs.Prelude.{◌≡◌, ◌<◌, ◌≤◌, length, IfOk, IfSome};
ghost use Rattle.picture.specs.CellSet.{HasCell};
ghost use Rattle.line_facts.specs.FactSets.{SameShape};
ghost use Rattle.clues.specs.Solution.{IsOther};
ghost use Rattle.fixpoint.specs.Fillings.{only};
ghost use Rattle.second_search.specs.Near.{IsWindow, OpensIn};
ghost use Rattle.second_search.specs.Parts.{IsOtherFilling, IsScene};
ghost use Rattle.second_search.specs.Scene.{CanSearch};

use crate::counting::{Ending, Searched, Start, search_counted};
use crate::part_search::{facts_on, lines_through, put_both};
use crate::parts::Parts;
use crate::scene::Scene;
use fixpoint::{CloseFault, InOrder, settle_afresh};
use line_facts::{Facts, LineEngine, NOTHING_DONE};
use picture::{Axis, CellSet, LineId, LineSet, MAX_SIDE, Picture};
use std::alloc::{AllocError, Global};

/// How many of a part's rows and columns a window has at most, in the order in which the sizes are tried.
pub(crate) const SIZES: [u8; 5] = [4, 7, 11, 16, 24];

/// How many of these sizes are small.
pub(crate) const SMALL: usize = 2;

// Lines with the same clue differ in no cell or in at least two, so another picture differs in at least two rows and two columns.
const FEWEST: usize = 4;

// The rows and columns of a window, its open cells, the lines through them, and how many splits a search in it may make.
#[derive(Drop)]
pub(crate) struct Window<'a> {
    pub rows: &'a [u8],
    pub columns: &'a [u8],
    pub cells: CellSet,
    pub lines: LineSet,
    pub splits: u32,
}

/// Looks for another picture that differs only in one window of a part, one part after the other, with windows of five sizes and at
/// most `splits` splits in each. The parts are those of the scene's facts when they are closed. There may be other pictures where
/// the answer is None. No line may be longer than the engine's `longest`. No clause bounds the splits in a window.
pub fn find_near_other<E: LineEngine>(
    alloc: Global,
    engine: &mut E,
    scene: &Scene,
    splits: u32,
) -> Result<Option<Picture>, AllocError>
    requires scene { IsScene scene.now.clues.now scene.now.givens.now scene.now.facts.now
        scene.now.picture.now }
    requires tall { length scene.now.clues.now.rows ≤ E.longest engine.old }
    requires wide { length scene.now.clues.now.columns ≤ E.longest engine.old }
    ensures other { IfOk result (λ found. IfSome found
        (IsOther scene.now.clues.now (HasCell scene.now.givens.now) scene.now.picture.now)) }
    ensures calls { E.calls engine.old ≤ E.calls engine.new }
    ensures same_longest { E.longest engine.new ≡ E.longest engine.old }
{
    let Some(facts) = closed(engine, scene)? else {
        return Ok(None);
    };
    let closed = Scene {
        facts: &facts,
        ..*scene
    };
    let parts = Parts::of(alloc, &facts)?;
    for i in 0..parts.len() {
        let found = find_near(alloc, engine, &closed, parts.cells(i), &SIZES, splits)?;
        if found.is_some() {
            return Ok(found);
        }
    }
    Ok(None)
}

// The facts of a scene, closed. None where a line is dead.
fn closed<E: LineEngine>(engine: &mut E, scene: &Scene) -> Result<Option<Facts>, AllocError>
    requires { CanSearch scene.now (E.longest engine.old) }
    ensures scene { IfOk result (λ found. IfSome found (λ facts.
        IsScene scene.now.clues.now scene.now.givens.now facts scene.now.picture.now)) }
    ensures calls { E.calls engine.old ≤ E.calls engine.new }
    ensures same_longest { E.longest engine.new ≡ E.longest engine.old }
{
    let _ = engine.calls();
    let mut agenda = InOrder::make();
    let mut meter = NOTHING_DONE;
    match settle_afresh(engine, &mut agenda, scene.clues, &mut meter, scene.facts) {
        Ok(facts) => Ok(Some(facts)),
        Err(CloseFault::Dead) => Ok(None),
        Err(CloseFault::Memory) => Err(AllocError),
    }
}

// Looks for another filling of a part that differs only in one window, with windows of some sizes, each of which overlaps the next
// by a third. There may be others where the answer is None.
pub(crate) fn find_near<E: LineEngine>(
    alloc: Global,
    engine: &mut E,
    scene: &Scene,
    cells: &CellSet,
    sizes: &[u8],
    splits: u32,
) -> Result<Option<Picture>, AllocError>
    requires { CanSearch scene.now (E.longest engine.old) }
    ensures other { IfOk result (λ found. IfSome found
        (IsOtherFilling scene.now.clues.now scene.now.givens.now scene.now.picture.now cells.now)) }
    ensures calls { E.calls engine.old ≤ E.calls engine.new }
    ensures same_longest { E.longest engine.new ≡ E.longest engine.old }
{
    let _ = scene.facts.height();
    let home = facts_on(scene, &CellSet::empty())?;
    let lines = lines_through(cells, scene.facts);
    let rows = places_along(alloc, &lines, Axis::Across)?;
    let columns = places_along(alloc, &lines, Axis::Down)?;
    for size in sizes {
        let along = windows_along(&columns, *size);
        let count = windows_along(&rows, *size).saturating_mul(along);
        for i in 0..count {
            let down = window_along(&rows, i / along, *size);
            let across = window_along(&columns, i % along, *size);
            let window = window_of(scene.facts, cells, down, across, splits);
            let found = find_inside(alloc, engine, scene, &home, cells, &window)?;
            if found.is_some() {
                return Ok(found);
            }
        }
    }
    Ok(None)
}

// Looks for another picture that differs only in the cells of a window, with at most as many splits as the window allows. `home`
// leaves only the picture's colours.
fn find_inside<E: LineEngine>(
    alloc: Global,
    engine: &mut E,
    scene: &Scene,
    home: &Facts,
    cells: &CellSet,
    window: &Window,
) -> Result<Option<Picture>, AllocError>
    requires can { CanSearch scene.now (E.longest engine.old) }
    requires home { home.now ≡ only scene.now.picture.now }
    requires window { IsWindow scene.now.facts.now cells.now window.now }
    ensures other { IfOk result (λ found. IfSome found
        (IsOtherFilling scene.now.clues.now scene.now.givens.now scene.now.picture.now cells.now)) }
    ensures calls { E.calls engine.old ≤ E.calls engine.new }
    ensures same_longest { E.longest engine.new ≡ E.longest engine.old }
{
    if window.lines.len() < FEWEST {
        return Ok(None);
    }
    let start = Start {
        facts: open_in(scene.facts, home, window)?,
        lines: window.lines,
        allowance: Some(window.splits),
    };
    let searched = search_counted(alloc, engine, scene.clues, scene.picture, start)?;
    let Searched { ending, .. } = searched;
    match ending {
        Ending::Found(picture) => Ok(Some(picture)),
        Ending::Nothing | Ending::BrokenOff => Ok(None),
    }
}

// The facts `home`, with the colours that other facts leave in a window's cells.
fn open_in(facts: &Facts, home: &Facts, window: &Window) -> Result<Facts, AllocError>
    requires { SameShape home.now facts.now }
    ensures { IfOk result (OpensIn window.now.cells facts.now home.now) }
{
    let mut opened = home.copy()?;
    for row in window.rows {
        for col in window.columns {
            if *row < facts.height() && *col < facts.width() && window.cells.has(*row, *col) {
                opened.set_left(*row, *col, facts.left(*row, *col));
            }
        }
    }
    Ok(opened)
}

// The open cells of a part in some rows and columns, with the lines through them, and how many splits a search there may make.
fn window_of<'a>(
    facts: &Facts,
    cells: &CellSet,
    rows: &'a [u8],
    columns: &'a [u8],
    splits: u32,
) -> Window<'a>
    ensures { IsWindow facts.now cells.now result }
{
    let mut window = Window {
        rows,
        columns,
        cells: CellSet::empty(),
        lines: LineSet::empty(),
        splits,
    };
    for row in rows {
        for col in columns {
            open_cell(facts, cells, *row, *col, &mut window);
        }
    }
    window
}

// Puts a cell into a window, where it is an open cell of the part.
fn open_cell(facts: &Facts, cells: &CellSet, row: u8, col: u8, window: &mut Window)
    requires { IsWindow facts.now cells.now window.old }
    ensures { IsWindow facts.now cells.now window.new }
{
    if row >= facts.height() || col >= facts.width() {
        return;
    }
    if cells.has(row, col) && facts.shown(row, col).is_none() {
        window.cells.put(row, col);
        put_both(&mut window.lines, row, col);
    }
}

// The places of the named lines along an axis, in ascending order.
fn places_along(alloc: Global, lines: &LineSet, axis: Axis) -> Result<Vec<u8>, AllocError> {
    let mut places = Vec::new(alloc);
    for at in 0..MAX_SIDE {
        if lines.has(LineId { axis, at }) {
            places.push(at)?;
        }
    }
    Ok(places)
}

// How many windows of a size there are along some places, at least one.
fn windows_along(places: &[u8], size: u8) -> usize
    ensures { 0 < result }
{
    let over = usize::from(size / 3);
    let step = step_of(size);
    let beyond = places.len().saturating_sub(over);
    (beyond.saturating_add(step - 1) / step).max(1)
}

// How many places a window starts after the one before it, which it overlaps by a third.
fn step_of(size: u8) -> usize
    ensures { 0 < result }
{
    usize::from(size - size / 3).max(1)
}

// The places of a window, by its number from 0.
fn window_along(places: &[u8], at: usize, size: u8) -> &[u8] {
    let first = at.saturating_mul(step_of(size)).min(places.len());
    let count = usize::from(size).min(places.len() - first);
    &places[first..first + count]
}
