//! The clue of a line, counted in one pass.

ghost use Rattle.std.specs.Prelude.{◌≡◌, ◌≢◌, ◌+◌, ◌<◌, ◌++◌, length, take, IfOk};
ghost use Rattle.clues.specs.Clue.{clue_of, blocks_of};

use crate::{Block, Clue};
use picture::{LineView, MAX_SIDE};
use std::alloc::{AllocError, Global};

// Room for the blocks of any line.
type Blocks = [Block; MAX_BLOCKS];

// A line of the greatest length has no more blocks than cells.
const MAX_BLOCKS: usize = MAX_SIDE as usize;

#[tactic(auto, using(crate::proofs::Runs::runs))]
/// The clue of a line: its runs of equal cells in order, without the background.
pub fn clue_of(alloc: Global, line: LineView<'_>) -> Result<Clue, AllocError>
    ensures { IfOk result (λ clue. clue ≡ clue_of line.entry) }
{
    let mut blocks = [Block { len: 0, colour: 0 }; MAX_BLOCKS];
    let mut count = 0;
    let mut run = Block { len: 0, colour: 0 };
    for colour in line.iter() {
        if colour == run.colour {
            run.len += 1;
        } else {
            count = finish(&mut blocks, count, run);
            run = Block { len: 1, colour };
        }
    }
    let count = finish(&mut blocks, count, run);
    Clue::from_blocks(alloc, &blocks[..count])
}

#[tactic(auto, using(crate::proofs::Runs::finishing))]
// Appends a run that has ended, unless it is background, and returns the new count of blocks.
fn finish(blocks: &mut Blocks, count: usize, run: Block) -> usize
    requires { run.colour ≢ 0 → count < MAX_SIDE }
    ensures blocks { take result blocks.new
        ≡ take count blocks.old ++ blocks_of run.len run.colour }
    ensures count { result ≡ count + length (blocks_of run.len run.colour) }
{
    if run.colour == 0 {
        return count;
    }
    blocks[count] = run;
    count + 1
}
