//! An entry of the trail: a cell with the mask that it had, or what it is still to be held to.

// A cell with a mask of colours.
#[derive(Clone, Copy)]
pub(crate) struct CellMask {
    pub row: u8,
    pub col: u8,
    pub mask: u16,
}

// What a cell is still to be held to: each colour of a mask in turn, or the mask as a whole.
#[derive(Clone, Copy)]
pub(crate) enum Wait {
    Each(CellMask),
    Whole(CellMask),
}

// A note for backtracking: the mask that a cell had, or branches that wait.
#[derive(Clone, Copy)]
pub(crate) enum Note {
    Restore(CellMask),
    Branch(Wait),
}
