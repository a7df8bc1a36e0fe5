//! A note of a board's trail: the mask that a cell had, or a branch that waits.

// A cell with a mask of colours.
#[derive(Clone, Copy)]
pub(crate) struct CellMask {
    pub row: u8,
    pub col: u8,
    pub mask: u16,
}

// A branch that waits: a cell held to a mask, and how many cells have a colour in it other than the picture's.
#[derive(Clone, Copy)]
pub(crate) struct Branch {
    pub cell: CellMask,
    pub strays: u16,
}

// A note for backtracking.
#[derive(Clone, Copy)]
pub(crate) enum Note {
    Restore(CellMask),
    Wait(Branch),
}
