//! The cell that a search splits.

ghost use Rattle.std.specs.Prelude.{◌≡◌, ◌≤◌, max, IfOk};
ghost use Rattle.split_choice.specs.Choices.{CanSplit};

use crate::looking::{Look, look_at};
use crate::puzzle::{Choice, Node};
use crate::regions::{OpenCells, Region, smallest_unfilled};
use crate::telling::{Place, most_telling};
use line_facts::{Facts, LineEngine};
use picture::MAX_SIDE;
use std::alloc::{AllocError, Global};
use trail::Cell;

/// What is chosen: a cell to split, or narrower facts that the held picture's colours fill, or nothing.
#[derive(Drop)]
pub enum Chosen {
    Splits(Cell),
    Fills(Facts),
    Nothing,
}

/// Chooses a cell that is not settled, that is, without exactly one colour left. Once the engine has counted `until` calls, it is
/// not called again. Nothing may be chosen even where there is such a cell, and nothing is promised of the facts in `Fills`. The
/// engine's count of calls does not fall.
pub fn choose<E: LineEngine>(
    alloc: Global,
    engine: &mut E,
    node: &Node,
    choice: Choice,
    until: u64,
) -> Result<Chosen, AllocError>
    ensures can_split { IfOk result (CanSplit node.now.facts.now) }
    ensures calls { E.calls engine.old ≤ E.calls engine.new }
    ensures few { E.calls engine.new ≤ max (E.calls engine.old) until }
    ensures same_longest { E.longest engine.new ≡ E.longest engine.old }
{
    let open = OpenCells::of(node.facts);
    let Some(region) = smallest_unfilled(node, &open) else {
        return Ok(Chosen::Nothing);
    };
    match choice {
        Choice::First => Ok(split_at(node.facts, first_in(&open, &region))),
        Choice::Look => {
            let places = most_telling(alloc, node, &open, &region)?;
            look_ahead(engine, node, &places, until)
        }
    }
}

// A cell to split, where it is a cell of the facts that is not settled.
fn split_at(facts: &Facts, cell: Cell) -> Chosen
    ensures { CanSplit facts.now result }
{
    if cell.row < facts.height()
        && cell.col < facts.width()
        && facts.shown(cell.row, cell.col).is_none()
    {
        Chosen::Splits(cell)
    } else {
        Chosen::Nothing
    }
}

// The first open cell of a part in row order.
fn first_in(open: &OpenCells, region: &Region) -> Cell {
    let row = region.rows.trailing_zeros().min(u32::from(MAX_SIDE) - 1) as u8;
    let col = open.rows[usize::from(row)].trailing_zeros() as u8;
    Cell { row, col }
}

// The cell that tells most when its colours are tried. A cell of which at most one tried colour lives is chosen at once; on the
// held picture's own branch, where its colours are not tried, one of which none does.
fn look_ahead<E: LineEngine>(
    engine: &mut E,
    node: &Node,
    places: &[Place],
    until: u64,
) -> Result<Chosen, AllocError>
    ensures can_split { IfOk result (CanSplit node.now.facts.now) }
    ensures calls { E.calls engine.old ≤ E.calls engine.new }
    ensures few { E.calls engine.new ≤ max (E.calls engine.old) until }
    ensures same_longest { E.longest engine.new ≡ E.longest engine.old }
{
    let enough = if node.own { 0 } else { 1 };
    let mut best = None;
    let mut most = 0;
    for place in places {
        match look_at(engine, node, place.cell, until)? {
            Look::Fills(facts) => return Ok(Chosen::Fills(facts)),
            Look::Seen(tally) if tally.alive <= enough => {
                return Ok(split_at(node.facts, place.cell));
            }
            Look::Seen(tally) if best.is_none() || tally.worth() > most => {
                most = tally.worth();
                best = Some(place.cell);
            }
            Look::Seen(_) => {}
        }
        if engine.calls() >= until {
            break;
        }
    }
    Ok(match best {
        Some(cell) => split_at(node.facts, cell),
        None => Chosen::Nothing,
    })
}
