//! Premises and the masks of a line: bit k of a mask stands for colour k.

ghost use Rattle.std.specs.Prelude.{◌≡◌, ◌≢◌, ℕ, ◌+◌, ◌/◌, ◌^◌, ◌<◌, ◌≤◌, ◌↔◌, length, slice_index, take, IsTrue, IsBitSet, MatchBool};
ghost use Rattle.std.specs.List.{All};
ghost use Rattle.justify.specs.GatheredCells.{AreColoured, Gathered};
ghost use Rattle.justify.specs.Premises.{ArePremises, Gathers, HasSaid, IsComplement, KeepsLost, IsMark, LeavesRest, Mentions, Says};

use crate::premise::Premise;
use picture::MAX_SIDE;
use std::simd::prelude::*;

// No line has more cells.
pub(crate) const MOST_CELLS: usize = MAX_SIDE as usize;

// Writes the cells in which the masks of a line have colours to `found`, and returns how many there are. Eight cells are
// tested together, since usually few have colours.
pub(crate) fn gather(masks: &[u16], found: &mut [Premise]) -> usize
    requires room { length masks.now ≤ length found.old }
    requires short { length masks.now ≤ MOST_CELLS }
    ensures within { result ≤ length masks.now }
    ensures gathers { Gathers masks.now (take result found.new) }
{
    let mut count = 0;
    for chunk in 0..masks.len() / 8 {
        count = gather_eight(masks, 8 * chunk, found, count);
    }
    for place in masks.len() / 8 * 8..masks.len() {
        let colours = masks[place];
        if colours != 0 {
            found[count] = Premise {
                at: place as u8,
                colours,
            };
            count += 1;
        }
    }
    count
}

// As `gather`, for the eight cells from `first` on, where `before` are gathered already.
fn gather_eight(masks: &[u16], first: usize, found: &mut [Premise], before: usize) -> usize
    requires eight { first + 8 ≤ length masks.now }
    requires room { length masks.now ≤ length found.old }
    requires short { length masks.now ≤ MOST_CELLS }
    requires before { Gathered masks.now first found.old before }
    ensures { Gathered masks.now (first + 8) found.new result }
{
    let mut count = before;
    let mut place = first;
    let mut rest = coloured(masks, first);
    'cells: while rest != 0 {
        let empty = empty_before(masks, place, first + 8, rest);
        place += empty;
        found[count] = Premise {
            at: place as u8,
            colours: masks[place],
        };
        count += 1;
        place += 1;
        rest = (rest >> empty) >> 1;
    }
    count
}

#[inline]
// How many cells from `place` on precede the first with colours. `rest` has the bits of those that have some, at least one.
fn empty_before(masks: &[u16], place: usize, end: usize, rest: u64) -> usize
    requires coloured { AreColoured masks.now place end rest }
    requires some { rest ≢ 0 }
    ensures inside { place + result < end }
    ensures few { result < 64 }
    ensures none { (i : ℕ) → place ≤ i → i < place + result → slice_index masks.now i ≡ 0 }
    ensures here { 0 < slice_index masks.now (place + result) }
    ensures behind { AreColoured masks.now (place + result + 1) end (rest / 2 ^ result / 2) }
{
    rest.trailing_zeros() as usize
}

#[inline]
// Which of the eight cells from `first` on have colours, as bits.
fn coloured(masks: &[u16], first: usize) -> u64
    requires { first + 8 ≤ length masks.now }
    ensures { AreColoured masks.now first (first + 8) result }
{
    let none = u16x8::splat(0);
    u16x8::from_slice(&masks[first..])
        .simd_ne(none)
        .to_bitmask()
}

// Whether the premise at a place has a colour.
pub(crate) fn says(premises: &[Premise], place: u8, colour: u8) -> bool
    requires { colour < 16 }
    ensures { IsTrue result ↔ Says premises.now place colour }
{
    premises.iter().any(|premise| premise.at == place && has_colour(premise.colours, colour))
}

// Whether a mask has a colour.
fn has_colour(mask: u16, colour: u8) -> bool
    requires { colour < 16 }
    ensures { IsTrue result ↔ IsBitSet mask colour }
{
    mask & (1 << colour) != 0
}

// Sets the masks of a line to all sixteen colours but those of the premises.
pub(crate) fn leave_rest(premises: &[Premise], left: &mut [u16])
    requires premises { ArePremises premises.now }
    requires inside { (i : ℕ) → Mentions premises.now i → i < length left.old }
    ensures { LeavesRest premises.now left.new }
{
    left.fill(u16::MAX);
    for premise in premises {
        left[usize::from(premise.at)] = !premise.colours;
    }
}

// Replaces each mask of a line by that of the other colours.
pub(crate) fn complement(masks: &mut [u16])
    ensures { IsComplement masks.old masks.new }
{
    for place in 0..masks.len() {
        masks[place] = !masks[place];
    }
}

// Sets each mask to the colours that `before` has there and it has not, and returns whether there are any.
pub(crate) fn keep_lost(before: &[u16], masks: &mut [u16]) -> bool
    requires { length before.now ≡ length masks.old }
    ensures kept { KeepsLost before.now masks.old masks.new }
    ensures any { MatchBool result (All (λ mask. mask ≡ 0) masks.new → ⊥)
        (All (λ mask. mask ≡ 0) masks.new) }
{
    let mut seen = 0;
    for place in 0..masks.len() {
        let lost = before[place] & !masks[place];
        masks[place] = lost;
        seen |= lost;
    }
    seen != 0
}

// Whether no mask of a line has a colour that the premise at its place has.
pub(crate) fn has_none(premises: &[Premise], left: &[u16]) -> bool
    requires { (i : ℕ) → Mentions premises.now i → i < length left.now }
    ensures { MatchBool result (HasSaid premises.now left.now → ⊥) (HasSaid premises.now left.now) }
{
    for premise in premises {
        if left[usize::from(premise.at)] & premise.colours != 0 {
            return false;
        }
    }
    true
}

// Clears the masks of a line, and sets one colour in one cell.
pub(crate) fn mark(masks: &mut [u16], place: u8, colour: u8)
    requires place { place < length masks.old }
    requires in_colours { colour < 16 }
    ensures { IsMark place colour masks.new }
{
    masks.fill(0);
    masks[usize::from(place)] = 1 << colour;
}
