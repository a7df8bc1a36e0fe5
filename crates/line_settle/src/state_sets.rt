//! Sets of states of a pattern as bits, for leaving premises out.

ghost use Rattle.std.specs.Prelude.{◌≡◌, ℕ, ◌+◌, ◌<◌, ◌≤◌, ◌↔◌, true, List, Bool, length, map, replicate, slice_index};
ghost use Rattle.clues.specs.Clue.{IsClue};
ghost use Rattle.line_settle.specs.Patterns.{allows, pattern_of};
ghost use Rattle.line_settle.specs.LaidBlocks.{gap_before};
ghost use Rattle.line_facts.specs.BitSets.{has};
ghost use Rattle.line_settle.specs.StateSets.{AreMovesOf, AreNext, ArePatternSets, moves_of, sets_of};

use crate::block_steps::meets;
use crate::pattern::allows;
use crate::position_tables::see_colour;
use crate::word::Word;
use clues::Block;

/// How a cell with one of a mask's colours moves a line along a pattern: the states from which it can lead to the next
/// state, and those in which it can keep the line.
#[derive(Clone, Copy)]
pub struct Moves<W> {
    pub mask: u16,
    /// The states from which the cell can lead to the next state.
    pub advancing: W,
    /// The states in which the cell, as background, can keep the line.
    pub resting: W,
}

/// Sets of the states of a clue's pattern, by what can be read in them.
#[derive(Clone, Copy)]
pub struct PatternSets<'a, W> {
    /// For each colour the states after which the pattern goes on with it.
    pub next: &'a [W],
    /// The states in which background can be read without leaving them.
    pub waiting: W,
    /// Background and the colours of the pattern.
    pub colours: u16,
    /// All states but the last.
    pub inner: W,
    /// The last state alone.
    pub last: W,
}

// The states from `start` to before `end`.
fn states_between<W: Word>(start: usize, end: usize) -> W
    requires in_order { start ≤ end }
    requires few { end < W.width }
    ensures { (q : ℕ) → (has (W.bits result) q ≡ true) ↔ ((start ≤ q) × (q < end)) }
{
    W::place(end).minus(W::place(start))
}

// Adds the states from `start` to before `end`, after each of which the pattern goes on with a colour.
fn see_run<W: Word>(start: usize, end: usize, colour: u8, next: &mut [W])
    requires in_order { start ≤ end }
    requires few { end < W.width }
    requires colour { colour < 16 }
    requires sixteen { length next.old ≡ 16 }
    ensures { (pattern : List ℕ) → AreNext pattern start (map W.bits next.old)
        → ((q : ℕ) → start ≤ q → q < end → slice_index pattern (q + 1) ≡ colour)
        → AreNext pattern end (map W.bits next.new) }
{
    see_colour(states_between(start, end), colour, next);
}

// The state in which a line waits for a block, `state` being the one after the block before, with a gap between them or
// none.
fn start_behind(state: usize, is_gap: bool) -> usize
    requires { state < 128 }
    ensures { result ≡ state + gap_before is_gap }
{
    if is_gap { state + 1 } else { state }
}

impl<'a, W: Word> PatternSets<'a, W> {
    /// The sets of a clue's pattern. Those by colour are made in `next`, which must hold 16 empty sets.
    #[inline(always)]
    pub fn of(blocks: &[Block], next: &'a mut [W]) -> PatternSets<'a, W>
        requires blocks_of_clue { IsClue blocks.now }
        requires short { length (pattern_of blocks.now) ≤ W.width }
        requires none_next { map W.bits next.old ≡ replicate 16 0 }
        ensures sixteen { length result.next.now ≡ 16 }
        ensures sets { ArePatternSets W.width (pattern_of blocks.now) (sets_of W.bits result) }
    {
        let mut waiting = W::low(0);
        let mut colours: u16 = 1;
        let mut state = 0;
        for j in 0..blocks.len() {
            let block = blocks[j];
            let start = start_behind(state, meets(blocks, j));
            let end = start + usize::from(block.len);
            see_run(state, start, 0, next);
            see_run(start, end, block.colour, next);
            waiting = waiting.or(W::place(start));
            colours |= 1 << block.colour;
            state = end;
        }
        let last = W::place(state);
        PatternSets {
            next,
            waiting: waiting.or(last),
            colours,
            inner: states_between(0, state),
            last,
        }
    }

    // The states from which a cell with one of the colours leads to the next state.
    fn advancing_by(&self, colours: u16) -> W
        requires { length self.now.next.now ≡ 16 }
        ensures { (q : ℕ) → (has (W.bits result) q ≡ true)
            ↔ ((k : ℕ) × (allows colours k ≡ true)
            × (has (slice_index (map W.bits self.now.next.now) k) q ≡ true)) }
    {
        if colours == 0 {
            return W::low(0);
        }
        let mut advancing = self.next[colours.trailing_zeros() as usize];
        let mut rest = colours & (colours - 1);
        'colours: while rest != 0 {
            advancing = advancing.or(self.next[rest.trailing_zeros() as usize]);
            rest &= rest - 1;
        }
        advancing
    }

    // The states in which a cell with one of the colours can keep a line.
    fn resting_by(&self, colours: u16) -> W
        ensures { (q : ℕ) → (has (W.bits result) q ≡ true)
            ↔ ((has (W.bits self.now.waiting) q ≡ true) × (allows colours 0 ≡ true)) }
    {
        if allows(colours, 0) {
            self.waiting
        } else {
            W::low(0)
        }
    }

    /// How a cell with one of the mask's colours moves a line.
    pub fn moves_by(&self, mask: u16) -> Moves<W>
        requires { length self.now.next.now ≡ 16 }
        ensures mask { result.mask ≡ mask }
        ensures moves { AreMovesOf W.width (sets_of W.bits self.now) mask (moves_of W.bits result) }
    {
        let colours = mask & self.colours;
        if colours == self.colours {
            return Moves {
                mask,
                advancing: self.inner,
                resting: self.waiting,
            };
        }
        Moves {
            mask,
            advancing: self.advancing_by(colours),
            resting: self.resting_by(colours),
        }
    }

    /// The same as `moves_by`. If `before` are the moves of the same mask, nothing is looked up.
    #[inline]
    pub fn moves_after(&self, mask: u16, before: Moves<W>) -> Moves<W>
        requires sixteen { length self.now.next.now ≡ 16 }
        requires before { AreMovesOf W.width (sets_of W.bits self.now) before.mask
            (moves_of W.bits before) }
        ensures mask { result.mask ≡ mask }
        ensures moves { AreMovesOf W.width (sets_of W.bits self.now) mask (moves_of W.bits result) }
    {
        if mask == before.mask {
            before
        } else {
            self.moves_by(mask)
        }
    }
}
