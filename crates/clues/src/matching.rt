//! Whether a clue is that of a line, decided without allocating memory.

ghost use Rattle.std.specs.Prelude.{◌≡◌, ◌≢◌, ◌↔◌, ◌++◌, List, IsTrue, IfSome, IfNone};
ghost use Rattle.clues.specs.declared.block.Block.{Block};
ghost use Rattle.clues.specs.Clue.{clue_of, blocks_of};

use crate::{Block, Clue};
use picture::LineView;

#[tactic(auto, using(crate::proofs::Runs::matching))]
// Whether the clue is that of the line.
pub(crate) fn is_clue_of(clue: &Clue, line: LineView<'_>) -> bool
    ensures { IsTrue result ↔ (clue_of line.entry ≡ clue.now) }
{
    let mut left = clue.blocks();
    let mut run = Block { len: 0, colour: 0 };
    for colour in line.iter() {
        if colour == run.colour {
            run.len += 1;
        } else {
            let Some(rest) = without_run(left, run) else {
                return false;
            };
            left = rest;
            run = Block { len: 1, colour };
        }
    }
    let Some(rest) = without_run(left, run) else {
        return false;
    };
    rest.is_empty()
}

/// The blocks after a run that has ended, or `None` if the first is not that run. Background takes no block.
pub fn without_run(blocks: &[Block], run: Block) -> Option<&[Block]>
    ensures some { IfSome result (λ rest. blocks.now ≡ blocks_of run.len run.colour ++ rest.now) }
    ensures none { IfNone result
        ((rest : List Block) → blocks.now ≢ blocks_of run.len run.colour ++ rest) }
{
    if run.colour == 0 {
        return Some(blocks);
    }
    match blocks {
        [first, rest @ ..] if *first == run => Some(rest),
        _ => None,
    }
}
