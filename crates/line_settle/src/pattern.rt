//! The pattern of a clue: its blocks spelled cell by cell. Its cells are the states of line solving.

ghost use Rattle.std.specs.Prelude.{◌≡◌, ℕ, ◌+◌, ◌<◌, ◌≤◌, ◌++◌, ◌==◌, length, take, replicate, MatchOption};
ghost use Rattle.clues.specs.Clue.{IsClue};
ghost use Rattle.line_settle.specs.Patterns.{gap, pattern_of, waits, allows};

use clues::Block;

#[tactic(auto, using(crate::proofs::WritingLemmas::spelling))]
/// Spells a clue cell by cell after one background cell, with background only between two blocks of one colour, and
/// answers how many cells that takes; `None` where the buffer is shorter.
pub fn spell(blocks: &[Block], buffer: &mut [u8]) -> Option<usize>
    requires blocks_of_clue { IsClue blocks.now }
    requires room { 0 < length buffer.old }
    requires small { length buffer.old ≤ 256 }
    ensures { MatchOption
        result
        (length buffer.old < length (pattern_of blocks.now))
        (λ n. (n ≤ length buffer.new) × (take n buffer.new ≡ pattern_of blocks.now)) }
{
    buffer[0] = 0;
    let mut end = 1;
    let mut last = 0;
    for block in blocks {
        end = write_block(*block, block.colour == last, buffer, end)?;
        last = block.colour;
    }
    Some(end)
}

// Writes the cells of one block from `start` on, after a background cell where it follows a block of its colour.
fn write_block(block: Block, is_gap: bool, buffer: &mut [u8], start: usize) -> Option<usize>
    requires begun { start ≤ length buffer.old }
    requires small { length buffer.old ≤ 256 }
    ensures { MatchOption
        result
        (length buffer.old < start + length (gap is_gap ++ replicate block.len block.colour))
        (λ n. (n ≤ length buffer.new)
        × (take n buffer.new
        ≡ take start buffer.old ++ (gap is_gap ++ replicate block.len block.colour))) }
{
    let first = if is_gap { start + 1 } else { start };
    let end = first + usize::from(block.len);
    if end > buffer.len() {
        return None;
    }
    if is_gap {
        buffer[start] = 0;
    }
    buffer[first..end].fill(block.colour);
    Some(end)
}

/// Whether a line may read background in state `q` without leaving it: where the pattern is at its end, or goes on with
/// a colour other than the last one spelled.
pub fn waits(pattern: &[u8], q: usize) -> bool
    requires { q < length pattern.now }
    ensures { result ≡ waits pattern.now q }
{
    pattern.len() <= q + 1 || (pattern[q + 1] != 0 && pattern[q + 1] != pattern[q])
}

/// Whether a colour is left in a mask.
pub fn allows(mask: u16, colour: u8) -> bool
    requires { colour < 16 }
    ensures { result ≡ allows mask colour }
{
    (mask >> colour) & 1 == 1
}
