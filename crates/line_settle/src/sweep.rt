//! Leaving premises out by one sweep: which cells a line needs to force what it draws.

ghost use Rattle.std.specs.Prelude.{◌≡◌, ℕ, ◌+◌, ◌-◌, ◌<◌, ◌≤◌, ◌↔◌, ◌⊎◌, true, List, Bool, IsTrue, length, map, slice_index, bit_and, drop};
ghost use Rattle.std.specs.List.{All};
ghost use Rattle.std.specs.Mem.{type_size};
ghost use Rattle.clues.specs.Clue.{IsClue};
ghost use Rattle.line_settle.specs.LeftOut.{ForcesAll, LeavesOut};
ghost use Rattle.line_settle.specs.Directions.{step_from};
ghost use Rattle.line_settle.specs.Patterns.{pattern_of, finishes};
ghost use Rattle.line_settle.specs.StateSets.{AreStates, MovesBy, ArePatternSets, Shares, moves_of, sets_of};
ghost use Rattle.line_settle.specs.MarkedLists.{finishes_marked, step_marked, AreReached, AreBehind, SweepsOut, reached_of, unmarked};
ghost use Rattle.line_settle.specs.Sweeps.{IsUndrawn, SweptTo, SweptMarked, SweptAll};
ghost use Rattle.line_facts.specs.Masks.{all_sixteen};
ghost use Rattle.line_facts.specs.BitSets.{has};

use crate::direction::{Direction, FromBack, FromFront};
use crate::mask_line::has_room;
use crate::state_sets::{Moves, PatternSets};
use crate::word::Word;
use clues::{Block, Clue};
use picture::MAX_SIDE;

// The most cells that a line has.
const MOST: usize = MAX_SIDE as usize;

// The longest of the short lines.
const FEW: usize = 16;

// A clue that needs at most this many cells has its states in 64 bits.
const NEAR: usize = 63;

/// The states that lines can be in: any lines, and the marked ones, which have a drawn colour somewhere.
#[derive(Clone, Copy)]
pub struct Reached<W> {
    /// Those of any line.
    pub all: W,
    /// Those of the marked lines.
    pub marked: W,
}

/// What is noted of a line from its end: for each cell the states after it from which lines, and marked lines, can go
/// to the end, and the place after the last drawn cell.
#[derive(Clone, Copy)]
pub struct Behind<'a, W> {
    pub plain: &'a [W],
    pub marked: &'a [W],
    pub end: usize,
}

/// An end of the range of drawn cells, which are those where some of the pattern's colours are drawn: a place with none of
/// them on one side, and the states at that place of the lines on that side.
#[derive(Clone, Copy)]
pub struct Edge<W> {
    pub at: usize,
    pub states: W,
}

// Whether a marked line reaches a state from which a line can go to the end, or a line reaches one from which a marked
// line can.
fn meets_marked<W: Word>(on: Reached<W>, plain: W, marked: W) -> bool
    ensures { IsTrue result ↔ (Shares (W.bits on.marked) (W.bits plain)
        ⊎ Shares (W.bits on.all) (W.bits marked)) }
{
    !on.marked.and(plain).or(on.all.and(marked)).is_none()
}

impl<'a, W: Word> PatternSets<'a, W> {
    // The states to which a cell with one of the drawn colours leads from a set. Mostly the pattern has none of these
    // colours.
    #[inline(always)]
    fn pass_drawn<D: Direction>(&self, colours: u16, from: W) -> W
        requires sixteen { length self.now.next.now ≡ 16 }
        ensures { (pattern : List ℕ) (test : ℕ → Bool)
            → ArePatternSets W.width pattern (sets_of W.bits self.now)
            → AreStates pattern test (W.bits from)
            → AreStates pattern (step_from D.end pattern colours test) (W.bits result) }
    {
        if colours & self.colours == 0 {
            return W::low(0);
        }
        D::pass(self.moves_by(colours), from)
    }

    // The states to which a cell leads, `colours` being those of the mask's colours that are drawn there.
    #[inline(always)]
    fn pass<D: Direction>(&self, moves: Moves<W>, colours: u16, from: Reached<W>) -> Reached<W>
        requires sixteen { length self.now.next.now ≡ 16 }
        ensures { (pattern : List ℕ) (mask : ℕ) (all marked : ℕ → Bool)
            → ArePatternSets W.width pattern (sets_of W.bits self.now)
            → MovesBy W.width pattern mask (moves_of W.bits moves)
            → AreReached pattern all marked (reached_of W.bits from)
            → AreReached
            pattern
            (step_from D.end pattern mask all)
            (step_marked D.end pattern mask colours all marked)
            (reached_of W.bits result) }
    {
        Reached {
            all: D::pass(moves, from.all),
            marked: D::pass(moves, from.marked).or(self.pass_drawn::<D>(colours, from.all)),
        }
    }

    // Notes the states after each cell that comes after the last drawn one. There no line is marked, since a line has
    // the pattern's colours alone.
    #[inline(always)]
    fn note_last(&self, drawn: &[u16], left: &[u16], plain: &mut [W], marked: &mut [W]) -> Edge<W>
        requires sixteen { length self.now.next.now ≡ 16 }
        requires same_length { length drawn.now ≡ length left.now }
        requires plain_room { length left.now ≤ length plain.old }
        requires marked_room { length left.now ≤ length marked.old }
        ensures inside { result.at ≤ length left.now }
        ensures undrawn { IsUndrawn self.now.colours drawn.now result.at }
        ensures later { (pattern : List ℕ)
            → ArePatternSets W.width pattern (sets_of W.bits self.now)
            → AreReached
            pattern
            (finishes pattern (drop result.at left.now))
            (finishes_marked pattern (drop result.at left.now) (drop result.at drawn.now))
            (unmarked (W.bits result.states)) }
        ensures noted { (pattern : List ℕ)
            → ArePatternSets W.width pattern (sets_of W.bits self.now)
            → (i : ℕ) → result.at ≤ i → i < length left.now
            → AreBehind
            pattern
            left.now
            drawn.now
            (map W.bits plain.new)
            (map W.bits marked.new)
            i }
    {
        let mut states = self.last;
        let mut cell = self.moves_by(u16::MAX);
        let mut at = left.len();
        'cells: while at > 0 && drawn[at - 1] & self.colours == 0 {
            at -= 1;
            plain[at] = states;
            marked[at] = W::low(0);
            cell = self.moves_after(left[at], cell);
            states = FromBack::pass(cell, states);
        }
        Edge { at, states }
    }

    /// Notes for each cell the states after it from which lines, and marked lines, can go to the end, and answers the
    /// place after the last drawn cell.
    #[inline(always)]
    fn note_behind(&self, drawn: &[u16], left: &[u16], plain: &mut [W], marked: &mut [W]) -> usize
        requires sixteen { length self.now.next.now ≡ 16 }
        requires same_length { length drawn.now ≡ length left.now }
        requires plain_room { length left.now ≤ length plain.old }
        requires marked_room { length left.now ≤ length marked.old }
        ensures inside { result ≤ length left.now }
        ensures undrawn { IsUndrawn self.now.colours drawn.now result }
        ensures noted { (pattern : List ℕ)
            → ArePatternSets W.width pattern (sets_of W.bits self.now)
            → (i : ℕ) → i < length left.now
            → AreBehind
            pattern
            left.now
            drawn.now
            (map W.bits plain.new)
            (map W.bits marked.new)
            i }
    {
        let last = self.note_last(drawn, left, plain, marked);
        let mut later = Reached {
            all: last.states,
            marked: W::low(0),
        };
        let mut cell = self.moves_by(u16::MAX);
        for i in (0..last.at).rev() {
            plain[i] = later.all;
            marked[i] = later.marked;
            cell = self.moves_after(left[i], cell);
            later = self.pass::<FromBack>(cell, left[i] & drawn[i], later);
        }
        last.at
    }

    // Gives each cell before the first drawn one all sixteen colours, unless some line would be marked then. No line has
    // a drawn colour in these cells.
    #[inline(always)]
    fn sweep_first(&self, drawn: &[u16], behind: &Behind<W>, left: &mut [u16]) -> Edge<W>
        requires sixteen { length self.now.next.now ≡ 16 }
        requires same_length { length drawn.now ≡ length left.old }
        requires end { behind.now.end ≤ length left.old }
        requires plain_room { length left.old ≤ length behind.now.plain.now }
        requires marked_room { length left.old ≤ length behind.now.marked.now }
        ensures inside { result.at ≤ behind.now.end }
        ensures swept { SweptTo
            W.width
            (sets_of W.bits self.now)
            drawn.now
            (map W.bits behind.now.plain.now)
            (map W.bits behind.now.marked.now)
            left.old
            left.new
            (unmarked (W.bits result.states))
            result.at }
    {
        let full = self.moves_by(u16::MAX);
        let mut states = W::low(1);
        let mut at = 0;
        'cells: while at < behind.end && drawn[at] & self.colours == 0 {
            let on = FromFront::pass(full, states);
            if on.and(behind.marked[at]).is_none() {
                left[at] = u16::MAX;
                states = on;
            } else {
                states = FromFront::pass(self.moves_by(left[at]), states);
            }
            at += 1;
        }
        Edge { at, states }
    }

    // The same for the cells up to the last drawn one, and answers the states after it that marked lines reach.
    #[inline(always)]
    fn sweep_drawn(&self, drawn: &[u16], behind: &Behind<W>, left: &mut [u16], first: Edge<W>) -> W
        requires sixteen { length self.now.next.now ≡ 16 }
        requires same_length { length drawn.now ≡ length left.old }
        requires end { behind.now.end ≤ length left.old }
        requires inside { first.at ≤ behind.now.end }
        requires plain_room { length left.old ≤ length behind.now.plain.now }
        requires marked_room { length left.old ≤ length behind.now.marked.now }
        ensures { (old : List ℕ)
            → SweptTo
            W.width
            (sets_of W.bits self.now)
            drawn.now
            (map W.bits behind.now.plain.now)
            (map W.bits behind.now.marked.now)
            old
            left.old
            (unmarked (W.bits first.states))
            first.at
            → SweptMarked
            W.width
            (sets_of W.bits self.now)
            drawn.now
            (map W.bits behind.now.plain.now)
            (map W.bits behind.now.marked.now)
            old
            left.new
            (W.bits result)
            behind.now.end }
    {
        let full = self.moves_by(u16::MAX);
        let mut from = Reached {
            all: first.states,
            marked: W::low(0),
        };
        for i in first.at..behind.end {
            let on = self.pass::<FromFront>(full, u16::MAX & drawn[i], from);
            if meets_marked(on, behind.plain[i], behind.marked[i]) {
                let moves = self.moves_by(left[i]);
                from = self.pass::<FromFront>(moves, left[i] & drawn[i], from);
            } else {
                left[i] = u16::MAX;
                from = on;
            }
        }
        from.marked
    }

    // The same for the cells after the last drawn one, where only marked lines matter.
    #[inline(always)]
    fn sweep_last(&self, drawn: &[u16], behind: &Behind<W>, left: &mut [u16], before: W)
        requires sixteen { length self.now.next.now ≡ 16 }
        requires same_length { length drawn.now ≡ length left.old }
        requires end { behind.now.end ≤ length left.old }
        requires undrawn { IsUndrawn self.now.colours drawn.now behind.now.end }
        requires plain_room { length left.old ≤ length behind.now.plain.now }
        requires marked_room { length left.old ≤ length behind.now.marked.now }
        ensures { (old : List ℕ)
            → SweptMarked
            W.width
            (sets_of W.bits self.now)
            drawn.now
            (map W.bits behind.now.plain.now)
            (map W.bits behind.now.marked.now)
            old
            left.old
            (W.bits before)
            behind.now.end
            → SweptAll
            W.width
            (sets_of W.bits self.now)
            drawn.now
            (map W.bits behind.now.plain.now)
            (map W.bits behind.now.marked.now)
            old
            left.new
            (length left.old) }
    {
        let full = self.moves_by(u16::MAX);
        let mut marked = before;
        for place in behind.end..left.len() {
            let on = FromFront::pass(full, marked);
            if on.and(behind.plain[place]).is_none() {
                left[place] = u16::MAX;
                marked = on;
            } else {
                marked = FromFront::pass(self.moves_by(left[place]), marked);
            }
        }
    }
}

// Leaves out what a line of at most N cells, with room for its blocks, can do without, by sets of states in words. The
// buffers have N words, which must be zeroed first, so short lines have small ones.
#[inline(never)]
fn leave_out_by<W: Word, const N: usize>(blocks: &[Block], drawn: &[u16], left: &mut [u16])
    requires blocks_of_clue { IsClue blocks.now }
    requires small_word { type_size W.row ≤ 16 }
    requires small_buffers { N ≤ MAX_SIDE }
    requires same_length { length drawn.now ≡ length left.old }
    requires short { length left.old ≤ N }
    requires few_states { length (pattern_of blocks.now) ≤ W.width }
    ensures { (finishes_marked (pattern_of blocks.now) left.old drawn.now 0 ≡ true → ⊥)
        → SweepsOut (pattern_of blocks.now) drawn.now left.old left.new (length left.old) }
{
    let mut next = [W::low(0); 16];
    let sets = PatternSets::of(blocks, &mut next);
    let mut plain = [W::low(0); N];
    let mut marked = [W::low(0); N];
    let end = sets.note_behind(drawn, left, &mut plain, &mut marked);
    let behind = Behind {
        plain: &plain,
        marked: &marked,
        end,
    };
    // Each cell gets all sixteen colours where no line is marked then, from the first cell on.
    let first = sets.sweep_first(drawn, &behind, left);
    let before = sets.sweep_drawn(drawn, &behind, left, first);
    sets.sweep_last(drawn, &behind, left, before);
}

// The same for a line of any length, in words of 64 bits if its states fit in them.
fn leave_out_in_words(blocks: &[Block], drawn: &[u16], left: &mut [u16])
    requires blocks_of_clue { IsClue blocks.now }
    requires has_room { length (pattern_of blocks.now) ≤ length left.old + 1 }
    requires same_length { length drawn.now ≡ length left.old }
    requires short { length left.old ≤ MAX_SIDE }
    ensures { (finishes_marked (pattern_of blocks.now) left.old drawn.now 0 ≡ true → ⊥)
        → SweepsOut (pattern_of blocks.now) drawn.now left.old left.new (length left.old) }
{
    if left.len() <= FEW {
        leave_out_by::<u64, FEW>(blocks, drawn, left);
    } else if left.len() <= NEAR {
        leave_out_by::<u64, NEAR>(blocks, drawn, left);
    } else if has_room(blocks, NEAR) {
        leave_out_by::<u64, MOST>(blocks, drawn, left);
    } else {
        leave_out_by::<u128, MOST>(blocks, drawn, left);
    }
}

// Whether all sixteen colours are left in each cell.
fn are_open(left: &[u16]) -> bool
    ensures { IsTrue result ↔ All (λ mask. mask ≡ all_sixteen) left.now }
{
    left.iter().all(|mask| *mask == u16::MAX)
}

/// Leaves out the exclusions of a line that it does not need to force those that are drawn. Bit k of a cell's mask is
/// colour k: `left` has the colours that are left, `drawn` those whose exclusion is drawn. From the first cell on, each
/// cell gets all sixteen colours back if the line still forces all that is drawn; then no cell that keeps its old mask
/// can do without it. The contract names no order; tests check that it is this one. No memory is taken, and no line is
/// evaluated.
pub fn leave_out(clue: &Clue, drawn: &[u16], left: &mut [u16])
    requires same_length { length drawn.now ≡ length left.old }
    requires short { length left.old ≤ MAX_SIDE }
    requires forced { ForcesAll clue.now left.old drawn.now }
    ensures { LeavesOut clue.now drawn.now left.old left.new }
{
    if are_open(left) {
        return;
    }
    let blocks = clue.blocks();
    if !has_room(blocks, left.len()) {
        left.fill(u16::MAX);
        return;
    }
    leave_out_in_words(blocks, drawn, left);
}
