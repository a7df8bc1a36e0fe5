//! A block of a clue: a length and a colour.

/// A maximal run of cells of one colour, not background: its length in cells, and its colour, 1 to 15.
#[derive(Clone, Copy, Debug, Default, PartialEq, Eq)]
pub struct Block {
    pub len: u8,
    pub colour: u8,
}
