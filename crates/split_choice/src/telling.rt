//! How telling an open cell is likely to be, before its colours are tried.

ghost use Rattle.std.specs.Prelude.{◌<◌, ◌≤◌};

use crate::filling::is_filled;
use crate::puzzle::Node;
use crate::regions::{OpenCells, Region, take_place};
use picture::{Axis, LineId, MAX_SIDE};
use std::alloc::{AllocError, Global};
use trail::Cell;

// How many of the most telling cells are tried.
const MOST_CELLS: usize = 40;

// How much a settled neighbour adds to a rank, and a line that the held picture's colours do not fill.
const NEIGHBOUR: u16 = 16;

const UNFILLED: u16 = 12;

/// A cell with its rank: the higher, the better.
#[derive(Clone, Copy)]
pub(crate) struct Place {
    pub rank: u16,
    pub cell: Cell,
}

/// The `MOST_CELLS` most telling open cells of a part, best first: with many settled neighbours, on lines that the held picture's
/// colours do not fill, or with few open cells.
pub(crate) fn most_telling(
    alloc: Global,
    node: &Node,
    open: &OpenCells,
    region: &Region,
) -> Result<Vec<Place>, AllocError> {
    let mut places = Vec::new(alloc);
    let rows = unfilled_along(node, Axis::Across, region.rows);
    let columns = unfilled_along(node, Axis::Down, region.columns);
    let mut along = region.rows;
    while let Some(row) = take_place(&mut along) {
        let mut cells = open.rows[usize::from(row)];
        while let Some(col) = take_place(&mut cells) {
            let unfilled = u16::from(rows >> row & 1 == 1) + u16::from(columns >> col & 1 == 1);
            let rank = rank_of(open, row, col).saturating_add(unfilled * UNFILLED);
            let cell = Cell { row, col };
            offer(&mut places, Place { rank, cell })?;
        }
    }
    Ok(places)
}

// Inserts a place among the best ones, the best first and of equal ones the earlier, and keeps at most `MOST_CELLS`.
fn offer(places: &mut Vec<Place>, place: Place) -> Result<(), AllocError> {
    let behind = places.len();
    if behind >= MOST_CELLS && places[behind - 1].rank >= place.rank {
        return Ok(());
    }
    let at = places
        .iter()
        .position(|other| other.rank < place.rank)
        .unwrap_or(behind);
    places.insert(at.min(behind), place)?;
    if places.len() > MOST_CELLS {
        let _worst = places.pop();
    }
    Ok(())
}

// The rank of a cell by its settled neighbours and by how few open cells one of its lines has.
fn rank_of(open: &OpenCells, row: u8, col: u8) -> u16
    requires in_rows { row < MAX_SIDE }
    requires in_columns { col < MAX_SIDE }
{
    let along = open.rows[usize::from(row)];
    let down = open.columns[usize::from(col)];
    let settled = settled_beside(along, col) + settled_beside(down, row);
    let fewest = along.count_ones().min(down.count_ones()).min(128);
    settled * NEIGHBOUR + (128 - fewest as u16)
}

// How many of a place's two neighbours on a line are not open. Outside of the line none is open.
fn settled_beside(line: u128, at: u8) -> u16
    requires { at < MAX_SIDE }
    ensures { result ≤ 2 }
{
    let before = at == 0 || line >> (at - 1) & 1 == 0;
    let behind = line >> (at + 1) & 1 == 0;
    u16::from(before) + u16::from(behind)
}

// Those of some lines along an axis that the held picture's colours do not fill. None where no picture is held.
fn unfilled_along(node: &Node, axis: Axis, places: u128) -> u128 {
    let mut unfilled = 0;
    if node.own || node.puzzle.held.is_none() {
        return unfilled;
    }
    let mut rest = places;
    while let Some(at) = take_place(&mut rest) {
        if !is_filled(&node.puzzle, node.facts, LineId { axis, at }) {
            unfilled |= 1 << at;
        }
    }
    unfilled
}
