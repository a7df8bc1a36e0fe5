//! Line solving with sets of positions, for the mask engine.

ghost use Rattle.std.specs.Prelude.{◌≡◌, ◌+◌, ◌<◌, ◌≤◌, ◌↔◌, IsTrue, length};
ghost use Rattle.std.specs.Mem.{type_size};
ghost use Rattle.clues.specs.Clue.{IsClue};
ghost use Rattle.line_facts.specs.NarrowedLine.{Narrows};
ghost use Rattle.line_settle.specs.Patterns.{pattern_of};

use crate::position_tables::{colours_of, mark_allowed, mark_back, see_blocks, write_colours};
use crate::shown_line::{are_shown, narrow_shown, narrow_without_blocks};
use crate::word::Word;
use clues::Block;
use line_facts::Outcome;
use picture::MAX_SIDE;

/// Whether a line of `cells` cells has room for a clue's blocks and for background between blocks of one colour.
pub fn has_room(blocks: &[Block], cells: usize) -> bool
    requires short { cells ≤ MAX_SIDE }
    ensures { IsTrue result ↔ length (pattern_of blocks.now) ≤ cells + 1 }
{
    let mut needed = 0;
    let mut last = 0;
    for block in blocks {
        needed += usize::from(block.len) + usize::from(block.colour == last);
        if needed > cells {
            return false;
        }
        last = block.colour;
    }
    true
}

// Narrows a line by the sets of positions for each block. It is not inlined, since inlining makes it slower.
#[inline(never)]
fn narrow_sets<W: Word>(
    blocks: &[Block],
    left: &[u16],
    starting: &mut [W],
    waiting: &mut [W],
    out: &mut [u16],
) -> Outcome
    requires blocks_of_clue { IsClue blocks.now }
    requires small_word { type_size W.row ≤ 16 }
    requires short { length left.now < W.width }
    requires starting_room { length blocks.now < length starting.old }
    requires waiting_room { length blocks.now < length waiting.old }
    requires same_length { length left.now ≡ length out.old }
    ensures { Narrows blocks.now left.now result out.new }
{
    let mut allowed = [W::low(0); 16];
    let made = mark_allowed(blocks, left, &mut allowed);
    if !mark_back(blocks, left, &allowed, starting, waiting) {
        out.fill(0);
        return Outcome::Dead;
    }
    let mut seen = [W::low(0); 16];
    see_blocks(blocks, left, &allowed, starting, waiting, &mut seen);
    let colours = colours_of(made);
    write_colours(&seen[..usize::from(colours)], out);
    Outcome::Narrowed
}

/// Narrows a line by its clue, with sets of positions for each block. `starting` and `waiting` are buffers. Where there
/// are no blocks, or all cells show a colour, one pass over the cells is enough. More blocks than cells never fit.
pub fn narrow_by_sets<W: Word>(
    blocks: &[Block],
    left: &[u16],
    out: &mut [u16],
    starting: &mut [W],
    waiting: &mut [W],
) -> Outcome
    requires blocks_of_clue { IsClue blocks.now }
    requires same_length { length left.now ≡ length out.old }
    requires short { length left.now ≤ MAX_SIDE }
    requires small_word { type_size W.row ≤ 16 }
    requires fits_word { length left.now < W.width }
    requires starting_room { length left.now < length starting.old }
    requires waiting_room { length left.now < length waiting.old }
    ensures { Narrows blocks.now left.now result out.new }
{
    if blocks.is_empty() {
        return narrow_without_blocks(left, out);
    }
    if are_shown(left) {
        return narrow_shown(blocks, left, out);
    }
    if blocks.len() > left.len() {
        out.fill(0);
        return Outcome::Dead;
    }
    narrow_sets(blocks, left, starting, waiting, out)
}
