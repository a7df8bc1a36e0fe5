//! The clue of one line: a list of blocks.

ghost use Rattle.std.specs.Prelude.{◌≡◌, ◌↔◌, IfOk, IsTrue};
ghost use Rattle.clues.specs.Clue.{IsClue};

use crate::Block;
use smallvec::SmallVec;
use std::alloc::{AllocError, Global};
use std::marker::Model;

/// The clue of a line: its blocks, from the left or from the top. Up to 8 blocks need no heap memory.
#[derive(Drop)]
pub struct Clue {
    blocks: SmallVec<Block, 8>,
}

impl Model for Clue {
    ghost use Rattle.std.specs.Prelude.{List};
    ghost use Rattle.clues.specs.declared.block.Block.{Block};
    ghost use Rattle.clues.specs.Clue.{IsClue};

    ghost Value = { List Block };

    ghost view = { λ c. c.blocks.items };

    ghost invariant = { λ c. IsClue c.blocks.items };
}

impl Clue {
    /// The clue with these blocks, each of at least one cell and in a colour from 1 to 15.
    pub fn from_blocks(alloc: Global, blocks: &[Block]) -> Result<Clue, AllocError>
        requires { IsClue blocks.now }
        ensures { IfOk result (λ clue. clue ≡ blocks.now) }
    {
        let blocks = SmallVec::from_slice(alloc, blocks)?;
        Ok(Clue { blocks })
    }

    /// The blocks, from the left or from the top.
    pub fn blocks(&self) -> &[Block]
        ensures blocks { result.now ≡ self.now }
        ensures clue { IsClue self.now }
    {
        self.blocks.as_slice()
    }

    /// Whether both clues have the same blocks.
    pub fn same(&self, other: &Clue) -> bool
        ensures { IsTrue result ↔ (self.now ≡ other.now) }
    {
        self.blocks() == other.blocks()
    }

    /// A copy of the clue, or an error if out of memory.
    pub fn copy(&self) -> Result<Clue, AllocError>
        ensures { IfOk result (λ clue. clue ≡ self.now) }
    {
        Clue::from_blocks(*self.blocks.allocator(), self.blocks())
    }
}
