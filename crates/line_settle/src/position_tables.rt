//! The passes of the mask engine over all blocks: from the back, and from the front.

ghost use Rattle.std.specs.Prelude.{◌≡◌, ℕ, ◌<◌, ◌≤◌, ◌&&◌, ◌||◌, ◌==◌, true, length, map, replicate, slice_index};
ghost use Rattle.std.specs.List.{All};
ghost use Rattle.std.specs.Mem.{type_size};
ghost use Rattle.clues.specs.Clue.{IsClue};
ghost use Rattle.line_settle.specs.Patterns.{allows, pattern_of, finishes};
ghost use Rattle.line_facts.specs.BitSets.{has};
ghost use Rattle.line_settle.specs.Positions.{HasMade};
ghost use Rattle.line_settle.specs.LaidBlocks.{AreMarked, AreSeen, IsAllowed};

use crate::block_steps::{before_gap, behind_gap, lay, meets, starts_before};
use crate::pattern::allows;
use crate::positions::{cells_with, colour_line, fill_down, fill_up, write_spans};
use crate::word::Word;
use clues::Block;

#[tactic(auto, using(crate::proofs::SetStepLemmas::making))]
// Makes the set of cells in which a colour is left, unless `made` has the colour, and answers `made` with the colour.
fn mark_colour<W: Word>(colour: u8, left: &[u16], made: u16, allowed: &mut [W]) -> u16
    requires colour { colour < 16 }
    requires short { length left.now < W.width }
    requires sixteen { length allowed.old ≡ 16 }
    requires before { HasMade left.now made (map W.bits allowed.old) }
    ensures after { HasMade left.now result (map W.bits allowed.new) }
    ensures here { allows result colour ≡ true }
    ensures kept { (k : ℕ) → allows made k ≡ true → allows result k ≡ true }
{
    if allows(made, colour) {
        return made;
    }
    allowed[usize::from(colour)] = cells_with(left, colour);
    made | (1 << colour)
}

/// Makes the sets of cells in which the background and the colour of each block are left, and answers a mask of these
/// colours.
pub fn mark_allowed<W: Word>(blocks: &[Block], left: &[u16], allowed: &mut [W]) -> u16
    requires blocks_of_clue { IsClue blocks.now }
    requires short { length left.now < W.width }
    requires sixteen { length allowed.old ≡ 16 }
    ensures made { IsAllowed blocks.now left.now (map W.bits allowed.new) }
    ensures background { allows result 0 ≡ true }
    ensures each { All (λ b. allows result b.colour ≡ true) blocks.now }
{
    let mut made = mark_colour(0, left, 0, allowed);
    for block in blocks {
        made = mark_colour(block.colour, left, made, allowed);
    }
    made
}

/// Marks for each block the positions from which the line can go to its end by laying the block there (`starting`), or
/// there or later (`waiting`), and answers whether it can go to its end from its first position.
pub fn mark_back<W: Word>(
    blocks: &[Block],
    left: &[u16],
    allowed: &[W],
    starting: &mut [W],
    waiting: &mut [W],
) -> bool
    requires blocks_of_clue { IsClue blocks.now }
    requires sixteen { length allowed.now ≡ 16 }
    requires short { length left.now < W.width }
    requires starting_room { length blocks.now < length starting.old }
    requires waiting_room { length blocks.now < length waiting.old }
    requires small_word { type_size W.row ≤ 16 }
    requires allowed_is { IsAllowed blocks.now left.now (map W.bits allowed.now) }
    ensures marked { AreMarked
        blocks.now
        left.now
        (map W.bits starting.new)
        (map W.bits waiting.new) }
    ensures fits { result ≡ finishes (pattern_of blocks.now) left.now 0 }
{
    let background = allowed[0];
    let mut spans = [background; 7];
    write_spans(background, &mut spans);
    let mut later = fill_down(W::place(left.len()), &spans);
    waiting[blocks.len()] = later;
    for j in (0..blocks.len()).rev() {
        let block = blocks[j];
        let starts = starts_before(later, allowed[usize::from(block.colour)], block.len);
        let waits = fill_down(starts, &spans);
        starting[j] = starts;
        waiting[j] = waits;
        later = before_gap(waits, background, meets(blocks, j));
    }
    later.has_first()
}

/// Adds the cells of a set to those seen with a colour.
#[inline]
pub fn see_colour<W: Word>(set: W, colour: u8, seen: &mut [W])
    requires colour { colour < 16 }
    requires sixteen { length seen.old ≡ 16 }
    ensures { (i k : ℕ) → has (slice_index (map W.bits seen.new) k) i
        ≡ (has (slice_index (map W.bits seen.old) k) i || (has (W.bits set) i && colour == k)) }
{
    let at = usize::from(colour);
    seen[at] = seen[at].or(set);
}

/// Collects, by colour, the cells in which a line that fits can have it, from what `mark_back` marked for each block.
pub fn see_blocks<W: Word>(
    blocks: &[Block],
    left: &[u16],
    allowed: &[W],
    starting: &[W],
    waiting: &[W],
    seen: &mut [W],
)
    requires blocks_of_clue { IsClue blocks.now }
    requires sixteen { length allowed.now ≡ 16 }
    requires none_seen { map W.bits seen.old ≡ replicate 16 0 }
    requires short { length left.now < W.width }
    requires starting_room { length blocks.now < length starting.now }
    requires waiting_room { length blocks.now < length waiting.now }
    requires allowed_is { IsAllowed blocks.now left.now (map W.bits allowed.now) }
    requires marked { AreMarked
        blocks.now
        left.now
        (map W.bits starting.now)
        (map W.bits waiting.now) }
    requires fits { finishes (pattern_of blocks.now) left.now 0 ≡ true }
    ensures { AreSeen blocks.now left.now (map W.bits seen.new) }
{
    let background = allowed[0];
    let mut from = W::low(1);
    for j in 0..blocks.len() {
        let block = blocks[j];
        let here = fill_up(behind_gap(from, background, meets(blocks, j)), background);
        // A line has background in the gap, which begins at `from`, and while it waits, at the positions of `here`. It
        // can go on after such a cell if it can wait for the block, or lay it, at the position after the cell.
        let stays = background.and(waiting[j].down(1));
        see_colour(from.or(here).and(stays), 0, seen);
        let laid = lay(here.and(starting[j]), block.len);
        see_colour(laid.cells, block.colour, seen);
        from = laid.ends;
    }
    // The same after the last block, where there is no gap.
    let here = fill_up(from, background);
    let stays = background.and(waiting[blocks.len()].down(1));
    see_colour(here.and(stays), 0, seen);
}

/// Writes for each cell the colours that were seen there.
pub fn write_colours<W: Word>(seen: &[W], out: &mut [u16])
    requires some { 0 < length seen.now }
    requires sixteen { length seen.now ≤ 16 }
    requires short { length out.old < W.width }
    ensures { (i k : ℕ) → i < length out.old
        → allows (slice_index out.new i) k ≡ has (slice_index (map W.bits seen.now) k) i }
{
    let last = seen.len() - 1;
    colour_line(seen[last], last as u8, false, out);
    for k in 0..last {
        let set = seen[k];
        if !set.is_none() {
            colour_line(set, k as u8, true, out);
        }
    }
}

#[tactic(auto, using(crate::proofs::BitLemmas::highest))]
/// How many colours there are up to the highest one of a mask.
pub fn colours_of(mask: u16) -> u8
    ensures few { result ≤ 16 }
    ensures each { (k : ℕ) → allows mask k ≡ true → k < result }
{
    (16 - mask.leading_zeros()) as u8
}
