//! How a part is decided: by the search in the fixed order; where that takes long and no allowance is set, then by small windows of
//! the part, the fixed order again, large windows, lemmas and trees.

ghost use Rattle.std.specs.Prelude.{◌≡◌, ◌-◌, ◌≤◌, ℕ, length, IfOk, OnOk};
ghost use Rattle.second_search.specs.Parts.{IsPart, IsScene};
ghost use Rattle.second_search.specs.FixedOrder.{EndsPast, EndsTrue, EndsWithin, IsCalled, alone, raised};
ghost use Rattle.second_search.specs.Scene.{CanSearch};
ghost use Rattle.second_search.specs.Evaluations.{AreFew};

use crate::bounds::{BOUNDS, Bounds, LONGER};
use crate::counting::{Ending, Searched};
use crate::finding::find_filling;
use crate::learning::learn_part;
use crate::near::{SIZES, SMALL, find_near};
use crate::part_search::{facts_on, search_part};
use crate::scene::Scene;
use line_facts::LineEngine;
use picture::CellSet;
use std::alloc::{AllocError, Global};

// Decides a part under an allowance; or, where none is set, within the bounds of the program.
pub(crate) fn decide_part<E: LineEngine>(
    alloc: Global,
    engine: &mut E,
    scene: &Scene,
    cells: &CellSet,
    allowance: Option<u32>,
) -> Result<Searched, AllocError>
    requires can { CanSearch scene.now (E.longest engine.old) }
    requires part { IsPart scene.now.facts.now cells.now }
    ensures ends { IfOk result (λ searched. (n : ℕ) × ((searched.splits ≡ raised 0 n)
        × EndsWithin scene.now.clues.now scene.now.picture.now
        (alone cells.now scene.now.facts.now scene.now.picture.now) allowance searched.ending n)) }
    ensures calls { E.calls engine.old ≤ E.calls engine.new }
    ensures called { OnOk result (IsCalled (E.calls engine.old) (E.calls engine.new)) }
    ensures few { AreFew allowance scene.now.facts.now 1 (E.calls engine.new - E.calls engine.old) }
    ensures same_longest { E.longest engine.new ≡ E.longest engine.old }
{
    match allowance {
        Some(most) => search_part(alloc, engine, scene, cells, Some(most)),
        None => decide_within(alloc, engine, scene, cells, BOUNDS),
    }
}

/// Decides whether a part has another filling: by `fixed_splits` splits of the fixed order, and where they do not suffice, by
/// windows, the fixed order again, lemmas and trees. Only the splits of the first search are counted. The answer is true whatever
/// the bounds are, and never `BrokenOff`. No line may be longer than the engine's `longest`.
pub fn decide_within<E: LineEngine>(
    alloc: Global,
    engine: &mut E,
    scene: &Scene,
    cells: &CellSet,
    bounds: Bounds,
) -> Result<Searched, AllocError>
    requires scene { IsScene scene.now.clues.now scene.now.givens.now scene.now.facts.now
        scene.now.picture.now }
    requires part { IsPart scene.now.facts.now cells.now }
    requires tall { length scene.now.clues.now.rows ≤ E.longest engine.old }
    requires wide { length scene.now.clues.now.columns ≤ E.longest engine.old }
    ensures ends { IfOk result (λ searched. (n : ℕ) × ((searched.splits ≡ raised 0 n)
        × EndsPast scene.now.clues.now scene.now.picture.now
        (alone cells.now scene.now.facts.now scene.now.picture.now) bounds.fixed_splits
        searched.ending n)) }
    ensures calls { E.calls engine.old ≤ E.calls engine.new }
    ensures called { OnOk result (IsCalled (E.calls engine.old) (E.calls engine.new)) }
    ensures same_longest { E.longest engine.new ≡ E.longest engine.old }
{
    let most = Some(bounds.fixed_splits);
    let Searched { ending, splits } = search_part(alloc, engine, scene, cells, most)?;
    let Ending::BrokenOff = ending else {
        return Ok(Searched { ending, splits });
    };
    let ending = climb_part(alloc, engine, scene, cells, bounds)?;
    Ok(Searched { ending, splits })
}

// Decides a part that costs more than the first splits: by small windows, by more splits of the fixed order, by large windows, by
// lemmas, and then by trees of the facts on it, with only the picture's colours left elsewhere.
fn climb_part<E: LineEngine>(
    alloc: Global,
    engine: &mut E,
    scene: &Scene,
    cells: &CellSet,
    bounds: Bounds,
) -> Result<Ending, AllocError>
    requires can { CanSearch scene.now (E.longest engine.old) }
    requires part { IsPart scene.now.facts.now cells.now }
    ensures ends { IfOk result (EndsTrue scene.now.clues.now scene.now.picture.now
        (alone cells.now scene.now.facts.now scene.now.picture.now)) }
    ensures calls { E.calls engine.old ≤ E.calls engine.new }
    ensures same_longest { E.longest engine.new ≡ E.longest engine.old }
{
    let splits = bounds.window_splits;
    if let Some(picture) = find_near(alloc, engine, scene, cells, &SIZES[..SMALL], splits)? {
        return Ok(Ending::Found(picture));
    }
    let again = Some(bounds.again_splits);
    let Searched { ending, .. } = search_part(alloc, engine, scene, cells, again)?;
    let Ending::BrokenOff = ending else {
        return Ok(ending);
    };
    if let Some(picture) = find_near(alloc, engine, scene, cells, &SIZES[SMALL..], splits)? {
        return Ok(Ending::Found(picture));
    }
    if let Some(ending) = learn_part(alloc, engine, scene, cells, bounds.conflicts)? {
        return Ok(ending);
    }
    let facts = facts_on(scene, cells)?;
    let part = Scene {
        facts: &facts,
        ..*scene
    };
    let first_bound = bounds.first_bound.saturating_mul(LONGER);
    match find_filling(alloc, engine, &part, true, first_bound)? {
        None => Ok(Ending::Nothing),
        Some(picture) => Ok(Ending::Found(picture)),
    }
}
