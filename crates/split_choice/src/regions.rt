//! The open cells of facts, in which more than one colour is left, and their parts, each given by its lines: a part has
//! either all open cells of a line or none.

ghost use Rattle.std.specs.Prelude.{◌<◌, length, IfSome};

use crate::filling::are_filled;
use crate::puzzle::Node;
use line_facts::Facts;
use picture::{Axis, MAX_SIDE};

// No picture has more rows or columns.
const SIDES: usize = MAX_SIDE as usize;

/// The open cells of facts: for each row a mask of their columns, and for each column a mask of their rows.
#[derive(Clone, Copy)]
pub(crate) struct OpenCells {
    pub rows: [u128; SIDES],
    pub columns: [u128; SIDES],
}

impl OpenCells {
    /// The open cells of facts.
    pub(crate) fn of(facts: &Facts) -> OpenCells {
        let mut open = OpenCells {
            rows: [0; SIDES],
            columns: [0; SIDES],
        };
        for row in 0..facts.height() {
            let mut along = 0;
            for col in 0..facts.width() {
                let left = facts.left(row, col);
                if left & left.wrapping_sub(1) != 0 {
                    along |= 1 << col;
                    open.columns[usize::from(col)] |= 1 << row;
                }
            }
            open.rows[usize::from(row)] = along;
        }
        open
    }
}

#[tactic(auto, using(std::proofs::lemmas::Nat::and_le_r))]
/// Takes the first place out of a mask, if it has one. A place that no picture has is returned as the last one that a
/// picture can have.
pub(crate) fn take_place(places: &mut u128) -> Option<u8>
    ensures place { IfSome result (λ at. at < MAX_SIDE) }
    ensures fewer { IfSome result (λ _. places.new < places.old) }
{
    if *places == 0 {
        return None;
    }
    let at = places.trailing_zeros().min(u32::from(MAX_SIDE) - 1);
    *places &= *places - 1;
    Some(at as u8)
}

// The union of the masks at the places of a mask, and the sum of their numbers of places.
fn united(masks: &[u128; SIDES], places: u128) -> (u128, u32) {
    let mut rest = places;
    let mut union = 0;
    let mut count: u32 = 0;
    while let Some(at) = take_place(&mut rest) {
        let mask = masks[usize::from(at)];
        union |= mask;
        count = count.saturating_add(mask.count_ones());
    }
    (union, count)
}

/// A part of the open cells: masks of its rows and its columns, and how many cells it has.
#[derive(Clone, Copy)]
pub(crate) struct Region {
    pub rows: u128,
    pub columns: u128,
    pub cells: u32,
}

/// The smallest part that the held picture's colours do not fill; where there is none, or no picture is held, the smallest.
pub(crate) fn smallest_unfilled(node: &Node, open: &OpenCells) -> Option<Region> {
    let mut smallest = None;
    let mut unfilled = None;
    let mut seen = 0;
    for row in 0..node.facts.height() {
        if open.rows[usize::from(row)] != 0 && seen >> row & 1 == 0 {
            let region = region_at(open, row);
            seen |= region.rows;
            if is_smaller(&region, smallest) {
                smallest = Some(region);
            }
            if is_smaller(&region, unfilled) && !is_region_filled(node, &region) {
                unfilled = Some(region);
            }
        }
    }
    unfilled.or(smallest)
}

// Whether a part is smaller than another, if there is one.
fn is_smaller(region: &Region, other: Option<Region>) -> bool {
    other.is_none_or(|other| region.cells < other.cells)
}

// The part that has the open cells of a row. Each round takes in the lines that cross those taken in before.
fn region_at(open: &OpenCells, row: u8) -> Region
    requires { row < MAX_SIDE }
{
    let mut region = Region {
        rows: 0,
        columns: 0,
        cells: 0,
    };
    let mut rows = 1 << row;
    for _ in 0..SIDES {
        let (crossing, cells) = united(&open.rows, rows);
        let columns = crossing & !region.columns;
        region.rows |= rows;
        region.columns |= columns;
        region.cells = region.cells.saturating_add(cells);
        rows = united(&open.columns, columns).0 & !region.rows;
        if rows == 0 {
            break;
        }
    }
    region
}

// Whether the held picture's colours fill each line of a part.
fn is_region_filled(node: &Node, region: &Region) -> bool {
    node.own
        || node.puzzle.held.is_none()
        || are_filled(&node.puzzle, node.facts, Axis::Across, region.rows)
            && are_filled(&node.puzzle, node.facts, Axis::Down, region.columns)
}
