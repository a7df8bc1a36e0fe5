//! Sets of positions on a line as bits, and moving them over background.

ghost use Rattle.std.specs.Prelude.{◌≡◌, ℕ, ◌+◌, ◌*◌, ◌/◌, ◌<◌, ◌≤◌, ◌&&◌, ◌||◌, ◌==◌, Bool, length, map, slice_index};
ghost use Rattle.line_settle.specs.Patterns.{allows};
ghost use Rattle.line_facts.specs.BitSets.{has};
ghost use Rattle.line_settle.specs.Positions.{AreSpans, IsCellsWith, IsColoured};

use crate::pattern::allows;
use crate::word::Word;
use std::simd::prelude::*;

/// The positions that can be reached from a set, cell by cell upwards, over the cells of `run`.
#[inline]
pub fn fill_up<W: Word>(set: W, run: W) -> W
    ensures first { has (W.bits result) 0 ≡ has (W.bits set) 0 }
    ensures on { (i : ℕ) → i + 1 < W.width
        → has (W.bits result) (i + 1)
        ≡ (has (W.bits set) (i + 1) || (has (W.bits run) i && has (W.bits result) i)) }
{
    // In this sum each cell of `run` passes a carry on, and starts one if it is in the set. The `xor`s leave the carries.
    let begun = set.and(run);
    let carried = begun.plus(run);
    set.or(carried.xor(begun).xor(run))
}

// The place of the span over sixteen cells.
const SHORT: usize = 4;

/// Makes the spans of a set of cells: for each power of two below the width, from 1 on, the positions from which that many
/// cells in a row are in the set.
#[inline]
#[tactic(auto, using(crate::proofs::SpanLemmas::stepping))]
pub fn write_spans<W: Word>(cells: W, spans: &mut [W])
    requires { length spans.old ≡ 7 }
    ensures seven { length spans.new ≡ 7 }
    ensures each { AreSpans W.width (W.bits cells) (map W.bits spans.new) }
{
    let mut span = cells;
    let mut step = 1;
    for k in 0..W::rounds() {
        spans[k] = span;
        span = span.and(span.down(step));
        step += step;
    }
}

/// The positions from which a set can be reached, cell by cell upwards, over cells with these spans: after a round those
/// that reach it over fewer than `step` cells. Mostly no sixteen such cells are in a row, and then four rounds are enough.
#[inline]
#[tactic(auto, using(crate::proofs::SpanLemmas::stepping))]
pub fn fill_down<W: Word>(set: W, spans: &[W]) -> W
    requires { length spans.now ≡ 7 }
    ensures { (cells : ℕ) → AreSpans W.width cells (map W.bits spans.now)
        → (i : ℕ)
        → has (W.bits result) i
        ≡ (has (W.bits set) i || (has cells i && has (W.bits result) (i + 1))) }
{
    let _ = set.is_none();
    let mut all = set;
    let mut step = 1;
    for k in 0..W::rounds() {
        let span = spans[k];
        if k >= SHORT && span.is_none() {
            return all;
        }
        all = all.or(all.down(step).and(span));
        step += step;
    }
    all
}

// The cells in which a colour is left, one by one, as the positions before them.
fn few_with(left: &[u16], colour: u8) -> u64
    requires { colour < 16 }
    ensures { (i : ℕ) → i < 64 → has result i ≡ allows (slice_index left.now i) colour }
{
    let mut cells = 0;
    for i in (0..left.len()).rev() {
        cells = (cells << 1) | u64::from(allows(left[i], colour));
    }
    cells
}

#[inline]
// The same for the eight cells from `first` on, which are compared with the colour together.
fn eight_with(left: &[u16], first: usize, colour: u8) -> u64
    requires colour { colour < 16 }
    requires room { first + 8 ≤ length left.now }
    ensures each { (i : ℕ) → i < 8
        → has result i ≡ allows (slice_index left.now (first + i)) colour }
    ensures no_more { result < 256 }
{
    let bit = u16x8::splat(1 << colour);
    let cells = u16x8::from_slice(&left[first..]);
    (cells & bit).simd_eq(bit).to_bitmask()
}

#[inline]
// The same for sixteen cells.
fn sixteen_with(left: &[u16], first: usize, colour: u8) -> u64
    requires colour { colour < 16 }
    requires room { first + 16 ≤ length left.now }
    ensures each { (i : ℕ) → i < 16
        → has result i ≡ allows (slice_index left.now (first + i)) colour }
    ensures no_more { result < 65536 }
{
    let bit = u16x16::splat(1 << colour);
    let cells = u16x16::from_slice(&left[first..]);
    (cells & bit).simd_eq(bit).to_bitmask()
}

// The same for 8 to 16 cells: the first eight and the last eight.
fn eights_with(left: &[u16], colour: u8) -> u64
    requires colour { colour < 16 }
    requires some { 8 ≤ length left.now }
    requires short { length left.now ≤ 16 }
    ensures { (i : ℕ) → has result i ≡ allows (slice_index left.now i) colour }
{
    let last = left.len() - 8;
    eight_with(left, 0, colour) | (eight_with(left, last, colour) << last)
}

// The same for at most 64 cells, sixteen by sixteen from the first on.
fn near_with(left: &[u16], colour: u8) -> u64
    requires colour { colour < 16 }
    requires short { length left.now ≤ 64 }
    ensures { (i : ℕ) → has result i ≡ allows (slice_index left.now i) colour }
{
    if left.len() < 8 {
        return few_with(left, colour);
    }
    if left.len() < 16 {
        return eights_with(left, colour);
    }
    let mut cells = 0;
    for chunk in 0..left.len() / 16 {
        cells |= sixteen_with(left, 16 * chunk, colour) << (16 * chunk);
    }
    if left.len() % 16 == 0 {
        return cells;
    }
    // The last sixteen cells together: some of them once more, which changes nothing.
    let last = left.len() - 16;
    cells | (sixteen_with(left, last, colour) << last)
}

/// The cells of a line in which a colour is left, as the positions before them.
pub fn cells_with<W: Word>(left: &[u16], colour: u8) -> W
    requires colour { colour < 16 }
    requires short { length left.now < W.width }
    ensures { IsCellsWith left.now colour (W.bits result) }
{
    if left.len() <= 64 {
        return W::low(near_with(left, colour));
    }
    let front = near_with(&left[..64], colour);
    let rest = near_with(&left[64..], colour);
    W::low(front).or(W::low(rest).up(64))
}

#[tactic(auto, using(crate::proofs::ColouringLemmas::colouring))]
/// The colours of a mask if `keep` is true, and `colour` if `more` is true.
pub fn with_colour(mask: u16, keep: bool, more: bool, colour: u8) -> u16
    requires colour { colour < 16 }
    ensures { (k : ℕ) → allows result k ≡ ((keep && allows mask k) || (more && colour == k)) }
{
    let kept = if keep { mask } else { 0 };
    if more { kept | (1 << colour) } else { kept }
}

#[inline]
#[tactic(auto, using(crate::proofs::ColouringLemmas::colouring))]
// Leaves a colour in those of the `count` cells from `first` on that follow a position of a set, which is counted from
// `first`. The set is as wide as a mask, so that with a constant count the cells can be lanes of one vector.
fn colour_cells(set: u16, colour: u8, keep: bool, first: usize, count: usize, out: &mut [u16])
    requires colour { colour < 16 }
    requires few { count ≤ 8 }
    requires room { first + count ≤ length out.old }
    ensures { IsColoured set colour keep first (first + count) out.old out.new }
{
    for j in 0..count {
        out[first + j] = with_colour(out[first + j], keep, (set >> j) & 1 == 1, colour);
    }
}

/// Leaves a colour in the cells after the positions of a set, and in all cells the colours that they had, where `keep`
/// says so.
#[inline(always)]
pub fn colour_line<W: Word>(set: W, colour: u8, keep: bool, out: &mut [u16])
    requires colour { colour < 16 }
    requires short { length out.old < W.width }
    ensures { (i k : ℕ) → i < length out.old
        → allows (slice_index out.new i) k
        ≡ ((keep && allows (slice_index out.old i) k) || (has (W.bits set) i && colour == k)) }
{
    let cells = out.len();
    if cells < 8 {
        colour_cells(set.low_eight(), colour, keep, 0, cells, out);
        return;
    }
    let mut rest = set;
    for chunk in 0..cells / 8 {
        // Always eight cells, so that they are coloured together.
        colour_cells(rest.low_eight(), colour, keep, 8 * chunk, 8, out);
        rest = rest.down(8);
    }
    if cells % 8 != 0 {
        // The last eight cells: some of them once more, which changes nothing.
        let last = cells - 8;
        colour_cells(set.down(last).low_eight(), colour, keep, last, 8, out);
    }
}
