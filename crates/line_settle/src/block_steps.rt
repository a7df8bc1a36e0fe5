//! Laying one block of a clue on sets of positions, for the mask engine.

ghost use Rattle.std.specs.Prelude.{◌≡◌, ℕ, ◌+◌, ◌<◌, ◌&&◌, true, false, length};
ghost use Rattle.clues.specs.Clue.{IsClue};
ghost use Rattle.line_facts.specs.BitSets.{has};
ghost use Rattle.line_settle.specs.LaidBlocks.{lays, moved, covers, meets};

use crate::word::Word;
use clues::Block;

/// The positions from which `len` cells, all of them in `cells`, lead to a position of `ends`.
#[inline]
pub fn starts_before<W: Word>(ends: W, cells: W, len: u8) -> W
    ensures { (i : ℕ) → has (W.bits result) i ≡ lays (W.bits cells) (W.bits ends) len i }
{
    let mut starts = ends;
    for _ in 0..len {
        starts = starts.down(1).and(cells);
    }
    starts
}

/// A block laid on a line from each position of a set.
#[derive(Clone, Copy)]
pub struct Laid<W> {
    /// The positions before the cells that the blocks take.
    pub cells: W,
    /// The positions after the blocks.
    pub ends: W,
}

/// Lays a block of `len` cells from each position of a set.
#[inline]
pub fn lay<W: Word>(starts: W, len: u8) -> Laid<W>
    ensures cells { (i : ℕ) → i < W.width
        → has (W.bits result.cells) i ≡ covers (W.bits starts) len i }
    ensures ends { (i : ℕ) → i < W.width
        → has (W.bits result.ends) i ≡ moved (W.bits starts) len i }
{
    let mut cells = W::low(0);
    let mut ends = starts;
    for _ in 0..len {
        cells = cells.or(ends);
        ends = ends.up(1);
    }
    Laid { cells, ends }
}

/// Whether a block has the colour of the block before it, so that background must lie between them.
pub fn meets(blocks: &[Block], j: usize) -> bool
    requires blocks_of_clue { IsClue blocks.now }
    requires place { j < length blocks.now }
    ensures { result ≡ meets 0 blocks.now j }
{
    j > 0 && blocks[j - 1].colour == blocks[j].colour
}

/// The positions before a block's gap from which the line can go on, where `later` are those after the gap.
#[inline]
pub fn before_gap<W: Word>(later: W, background: W, is_gap: bool) -> W
    ensures none { is_gap ≡ false → result ≡ later }
    ensures one { is_gap ≡ true
        → (i : ℕ)
        → has (W.bits result) i ≡ (has (W.bits background) i && has (W.bits later) (i + 1)) }
{
    if is_gap {
        later.down(1).and(background)
    } else {
        later
    }
}

/// The positions after a block's gap, where `from` are those before it. Without a gap they are the same.
#[inline]
pub fn behind_gap<W: Word>(from: W, background: W, is_gap: bool) -> W
    ensures none { is_gap ≡ false → result ≡ from }
    ensures first { is_gap ≡ true → has (W.bits result) 0 ≡ false }
    ensures one { is_gap ≡ true → (i : ℕ) → i + 1 < W.width
        → has (W.bits result) (i + 1) ≡ (has (W.bits background) i && has (W.bits from) i) }
{
    if is_gap {
        from.and(background).up(1)
    } else {
        from
    }
}
