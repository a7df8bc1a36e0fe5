//! The places at which two lists of masks differ, found sixteen at a time.

ghost use Rattle.std.specs.Prelude.{◌≡◌, ℕ, ◌+◌, ◌*◌, ◌/◌, ◌<◌, ◌≤◌, length, slice_index};
ghost use Rattle.line_facts.specs.BitSets.{has};
ghost use Rattle.line_facts.specs.CrossedLines.{differs};

use std::simd::prelude::*;

#[inline]
// The places among the sixteen from `first` on at which two lists of masks differ, compared together.
fn sixteen_apart(before: &[u16], after: &[u16], first: usize) -> u64
    requires room { first + 16 ≤ length before.now }
    requires same_length { length after.now ≡ length before.now }
    ensures each { (i : ℕ) → i < 16 → has result i ≡ differs before.now after.now (first + i) }
    ensures no_more { result < 65536 }
{
    let old = u16x16::from_slice(&before[first..]);
    let new = u16x16::from_slice(&after[first..]);
    old.simd_ne(new).to_bitmask()
}

/// The places at which two lists of masks differ, as the bits of a number. All are below `cells`, and the lists have at
/// least `cells` places, rounded up to a multiple of sixteen.
pub fn places_apart(before: &[u16], after: &[u16], cells: usize) -> u128
    requires same_length { length after.now ≡ length before.now }
    requires room { 16 * ((cells + 15) / 16) ≤ length before.now }
    requires short { length before.now ≤ 128 }
    requires same_behind { (i : ℕ) → cells ≤ i
        → slice_index before.now i ≡ slice_index after.now i }
    ensures { (i : ℕ) → has result i ≡ differs before.now after.now i }
{
    let mut places = 0u128;
    for chunk in (0..(cells + 15) / 16).rev() {
        places = (places << 16) | u128::from(sixteen_apart(before, after, 16 * chunk));
    }
    places
}
