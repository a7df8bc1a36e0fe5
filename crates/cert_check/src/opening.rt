//! Which colours of literals are left by facts.

ghost use Rattle.std.specs.Prelude.{◌≡◌, ◌-◌, ◌<◌, ◌≤◌, length, MatchOption};
ghost use Rattle.picture.specs.Rows.{width_of};
ghost use Rattle.cert_check.specs.Lemmas.{cell_left, left_of, still_open};
ghost use Rattle.cert_check.specs.Opening.{HasLeft, told_open};
ghost use Rattle.cert_check.specs.Stores.{ArePlaces, IsPlace};

use cert_text::{Literal, MAX_LEMMA_LITERALS};
use line_facts::Facts;
use trail::Cell;

// How many of some literals have a colour left in their cells.
#[derive(Clone, Copy)]
pub(crate) enum Open {
    // None has.
    Nothing,
    // Only this one has.
    One(Literal),
    // Two have, or more.
    More,
}

// The cell of a literal, if the facts have it; else no colour is left there.
pub(crate) fn cell_of(facts: &Facts, literal: Literal) -> Option<Cell>
    ensures { MatchOption
        result
        (cell_left facts.now literal ≡ 0)
        (λ cell. (cell.row ≡ literal.cell.row - 1) × (cell.col ≡ literal.cell.col - 1)
        × (cell.row < length facts.now) × (cell.col < width_of facts.now)) }
{
    let row = literal.cell.row.saturating_sub(1);
    let col = literal.cell.col.saturating_sub(1);
    if row >= u16::from(facts.height()) || col >= u16::from(facts.width()) {
        return None;
    }
    Some(Cell {
        row: row as u8,
        col: col as u8,
    })
}

#[inline]
// The colours of a literal that are left in its cell, which has a place in the list of all cells.
fn left_of(facts: &Facts, literal: Literal, place: u16) -> u16
    requires { IsPlace (length facts.now) (width_of facts.now) literal place }
    ensures { result ≡ left_of facts.now literal }
{
    facts.masks()[usize::from(place)] & literal.colours
}

// How many of a lemma's literals have a colour left. Their cells have these places in the list of all cells.
pub(crate) fn open_in(facts: &Facts, literals: &[Literal], places: &[u16]) -> Open
    requires few { length literals.now ≤ MAX_LEMMA_LITERALS }
    requires places { ArePlaces (length facts.now) (width_of facts.now) literals.now places.now }
    ensures told { result ≡ told_open (still_open facts.now literals.now) }
    ensures left { HasLeft facts.now result }
{
    let mut found = Open::Nothing;
    for i in 0..literals.len() {
        let literal = literals[i];
        if left_of(facts, literal, places[i]) != 0 {
            match found {
                Open::Nothing => found = Open::One(literal),
                Open::One(_) | Open::More => return Open::More,
            }
        }
    }
    found
}
