//! A part decided by a search that learns lemmas, with all cells outside of it given.

ghost use Rattle.std.specs.Prelude.{◌≡◌, ◌<◌, ◌≤◌, IfOk, IfSome};
ghost use Rattle.second_search.specs.FixedOrder.{EndsTrue, alone};
ghost use Rattle.second_search.specs.Learning.{IsOutside, PutsOutside};
ghost use Rattle.second_search.specs.Parts.{IsPart};
ghost use Rattle.second_search.specs.Scene.{CanSearch};

use crate::counting::Ending;
use crate::scene::Scene;
use lemma_proof::{Effort, Made, make_proof};
use line_facts::LineEngine;
use picture::{CellSet, MAX_SIDE, Picture};
use std::alloc::{AllocError, Global};

// How many literals the lemmas of a search have together at most.
pub(crate) const LITERALS: usize = 10_000_000;

// Decides a part by a proof by lemmas that the checker accepts, or by another picture. None where neither was made within the
// bounds of the search, or where no conflicts are allowed.
pub(crate) fn learn_part<E: LineEngine>(
    alloc: Global,
    engine: &mut E,
    scene: &Scene,
    cells: &CellSet,
    conflicts: u32,
) -> Result<Option<Ending>, AllocError>
    requires can { CanSearch scene.now (E.longest engine.old) }
    requires part { IsPart scene.now.facts.now cells.now }
    ensures ends { IfOk result (λ found. IfSome found
        (EndsTrue scene.now.clues.now scene.now.picture.now
        (alone cells.now scene.now.facts.now scene.now.picture.now))) }
    ensures calls { E.calls engine.old ≤ E.calls engine.new }
    ensures same_longest { E.longest engine.new ≡ E.longest engine.old }
{
    if conflicts == 0 {
        return Ok(None);
    }
    let effort = Effort {
        conflicts,
        literals: LITERALS,
        aims: false,
    };
    let givens = outside_of(cells, scene.picture);
    match make_proof(alloc, engine, scene.picture, &givens, effort)? {
        Made::Proof(_) => Ok(Some(Ending::Nothing)),
        Made::Other(picture) => Ok(Some(Ending::Found(picture))),
        Made::Undecided => Ok(None),
    }
}

// The cells of a picture that are not among some cells.
fn outside_of(cells: &CellSet, picture: &Picture) -> CellSet
    ensures { IsOutside cells.now picture.now result }
{
    let mut outside = CellSet::empty();
    for row in 0..picture.height() {
        put_outside(cells, row, picture.width(), &mut outside);
    }
    outside
}

// Puts the first cells of a row that are not among some cells into a set.
fn put_outside(cells: &CellSet, row: u8, width: u8, outside: &mut CellSet)
    requires in_rows { row < MAX_SIDE }
    requires in_columns { width ≤ MAX_SIDE }
    ensures { PutsOutside cells.now row width outside.old outside.new }
{
    for col in 0..width {
        if !cells.has(row, col) {
            outside.put(row, col);
        }
    }
}
