//! The passes of the plain engine: which states are reached, and which finish.

ghost use Rattle.std.specs.Prelude.{◌≡◌, ℕ, ◌+◌, ◌*◌, ◌<◌, ◌≤◌, ◌≢◌, ◌&&◌, ◌==◌, Bool, length, slice_index, drop};
ghost use Rattle.std.specs.List.{All};
ghost use Rattle.line_settle.specs.Patterns.{
  allows,
  waits,
  advances,
  rests,
  finish_step,
  finishes,
  reach_step,
  reaches,
  passes,
  passes_below,
  truth_at,
  table_row,
};

use crate::pattern::{allows, waits};
use crate::positions::with_colour;

// Whether a cell with one of the mask's colours leads from state `q` to the next one, where `later` holds.
fn advances(pattern: &[u8], mask: u16, later: &[bool], q: usize) -> bool
    requires colours { All (λ colour. colour < 16) pattern.now }
    requires row { length pattern.now ≤ length later.now }
    requires state { q < length pattern.now }
    ensures { result ≡ advances pattern.now mask (truth_at later.now) q }
{
    q + 1 < pattern.len() && allows(mask, pattern[q + 1]) && later[q + 1]
}

// Whether a cell can be background and leave a line in state `q`, where `later` holds.
fn rests(pattern: &[u8], mask: u16, later: &[bool], q: usize) -> bool
    requires row { length pattern.now ≤ length later.now }
    requires state { q < length pattern.now }
    ensures { result ≡ rests pattern.now mask (truth_at later.now) q }
{
    waits(pattern, q) && allows(mask, 0) && later[q]
}

// Whether state `q` is reached after a cell, where `before` says which states are reached before it.
fn reached_behind(pattern: &[u8], mask: u16, before: &[bool], q: usize) -> bool
    requires colours { All (λ colour. colour < 16) pattern.now }
    requires row { length pattern.now ≤ length before.now }
    requires state { q < length pattern.now }
    ensures { result ≡ reach_step pattern.now mask (truth_at before.now) q }
{
    (q > 0 && allows(mask, pattern[q]) && before[q - 1]) || rests(pattern, mask, before, q)
}

#[tactic(auto, using(crate::proofs::RowLemmas::rows))]
// Turns the states that finish after a cell into those that finish before it.
fn step_back(pattern: &[u8], mask: u16, row: &mut [bool])
    requires colours { All (λ colour. colour < 16) pattern.now }
    requires row { length pattern.now ≤ length row.old }
    ensures { (q : ℕ) → q < length pattern.now
        → truth_at row.new q ≡ finish_step pattern.now mask (truth_at row.old) q }
{
    for q in 0..pattern.len() {
        row[q] = advances(pattern, mask, row, q) || rests(pattern, mask, row, q);
    }
}

#[tactic(auto, using(crate::proofs::RowLemmas::rows))]
// Turns the states that are reached before a cell into those that are reached after it.
fn step_forward(pattern: &[u8], mask: u16, row: &mut [bool])
    requires colours { All (λ colour. colour < 16) pattern.now }
    requires row { length pattern.now ≤ length row.old }
    ensures { (q : ℕ) → q < length pattern.now
        → truth_at row.new q ≡ reach_step pattern.now mask (truth_at row.old) q }
{
    for q in (0..pattern.len()).rev() {
        row[q] = reached_behind(pattern, mask, row, q);
    }
}

#[tactic(auto, using(crate::proofs::BitLemmas::bits))]
// The colours with which a line passes on from state `q`.
fn colours_from(pattern: &[u8], mask: u16, before: &[bool], later: &[bool], q: usize) -> u16
    requires colours { All (λ colour. colour < 16) pattern.now }
    requires row { length pattern.now ≤ length later.now }
    requires rows { length pattern.now ≤ length before.now }
    requires state { q < length pattern.now }
    ensures { (k : ℕ) → allows result k
        ≡ passes pattern.now mask (truth_at before.now) (truth_at later.now) q k }
{
    if !before[q] {
        return 0;
    }
    let next = if q + 1 < pattern.len() {
        pattern[q + 1]
    } else {
        0
    };
    let passed = with_colour(0, false, advances(pattern, mask, later, q), next);
    with_colour(passed, true, rests(pattern, mask, later, q), 0)
}

#[tactic(auto, using(crate::proofs::BitLemmas::bits))]
// The colours with which a line passes through a cell.
fn colours_through(pattern: &[u8], mask: u16, before: &[bool], later: &[bool]) -> u16
    requires colours { All (λ colour. colour < 16) pattern.now }
    requires row { length pattern.now ≤ length later.now }
    requires rows { length pattern.now ≤ length before.now }
    ensures { (k : ℕ) → allows result k
        ≡ passes_below pattern.now mask (truth_at before.now) (truth_at later.now)
        (length pattern.now) k }
{
    let mut seen = 0;
    for q in 0..pattern.len() {
        seen |= colours_from(pattern, mask, before, later, q);
    }
    seen
}

// Makes a row of truth values true at one state alone.
fn mark_state(row: &mut [bool], state: usize)
    requires { state < length row.old }
    ensures { (q : ℕ) → truth_at row.new q ≡ (q == state) }
{
    row.fill(false);
    row[state] = true;
}

// Stores a row at place `i` of a table of such rows.
fn store_row(row: &[bool], table: &mut [bool], i: usize)
    requires { i * length row.now + length row.now ≤ length table.old }
    ensures stored { (q : ℕ) → q < length row.now
        → table_row table.new (length row.now) i q ≡ truth_at row.now q }
    ensures others { (j q : ℕ) → j ≢ i → q < length row.now
        → table_row table.new (length row.now) j q ≡ table_row table.old (length row.now) j q }
{
    let start = i * row.len();
    table[start..start + row.len()].copy_from_slice(row);
}

/// Fills row i of a table with the states from which the cells from cell i on can go to the end, for each cell and
/// for the line's end, and leaves those before the first cell in `row`.
pub fn mark_finishing(pattern: &[u8], left: &[u16], row: &mut [bool], table: &mut [bool])
    requires colours { All (λ colour. colour < 16) pattern.now }
    requires begun { 0 < length pattern.now }
    requires row { length pattern.now ≤ length row.old }
    requires room { length left.now * length row.old + length row.old ≤ length table.old }
    ensures first { (q : ℕ) → q < length pattern.now
        → truth_at row.new q ≡ finishes pattern.now left.now q }
    ensures each { (i q : ℕ) → i ≤ length left.now → q < length pattern.now
        → table_row table.new (length row.old) i q ≡ finishes pattern.now (drop i left.now) q }
{
    mark_state(row, pattern.len() - 1);
    store_row(row, table, left.len());
    for i in (0..left.len()).rev() {
        step_back(pattern, left[i], row);
        store_row(row, table, i);
    }
}

/// Writes for each cell the colours with which some line passes through it, from the table of `mark_finishing`.
pub fn collect(pattern: &[u8], left: &[u16], row: &mut [bool], table: &[bool], out: &mut [u16])
    requires colours { All (λ colour. colour < 16) pattern.now }
    requires begun { 0 < length pattern.now }
    requires row { length pattern.now ≤ length row.old }
    requires room { length left.now * length row.old + length row.old ≤ length table.now }
    requires same_length { length left.now ≡ length out.old }
    requires marked { (i q : ℕ) → i ≤ length left.now → q < length pattern.now
        → table_row table.now (length row.old) i q ≡ finishes pattern.now (drop i left.now) q }
    ensures { (i k : ℕ) → i < length left.now
        → allows (slice_index out.new i) k
        ≡ passes_below
        pattern.now
        (slice_index left.now i)
        (reaches pattern.now left.now i)
        (finishes pattern.now (drop (i + 1) left.now))
        (length pattern.now)
        k }
{
    mark_state(row, 0);
    for i in 0..left.len() {
        let start = (i + 1) * row.len();
        out[i] = colours_through(pattern, left[i], row, &table[start..start + row.len()]);
        step_forward(pattern, left[i], row);
    }
}
