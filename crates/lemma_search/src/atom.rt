//! Atoms and literals: one colour of a cell, and some colours of a cell.

ghost use Rattle.std.specs.Prelude.{◌<◌};

use picture::MAX_COLOURS;
use trail::Cell;

// How many columns a table has.
pub(crate) const STRIDE: usize = 128;

/// The place of a cell in a table.
pub(crate) fn spot(cell: Cell) -> usize
    ensures { result < 65536 }
{
    usize::from(cell.row) * STRIDE + usize::from(cell.col)
}

/// An atom: a cell and one colour.
#[derive(Clone, Copy, Debug, PartialEq, Eq)]
pub(crate) struct Atom {
    pub cell: Cell,
    pub colour: u8,
}

impl Atom {
    /// Its place in a table.
    pub(crate) fn place(self) -> usize {
        spot(self.cell) * usize::from(MAX_COLOURS) + usize::from(self.colour)
    }
}

/// A literal: a cell and some colours. It is true if the cell has one.
#[derive(Clone, Copy, Debug, PartialEq, Eq)]
pub(crate) struct Literal {
    pub cell: Cell,
    pub colours: u16,
}

impl Literal {
    /// The atom of the lowest of its colours that is in a mask.
    pub(crate) fn first_in(self, mask: u16) -> Atom {
        Atom {
            cell: self.cell,
            colour: first_colour(self.colours & mask),
        }
    }

    /// The atom of its cell and a colour.
    pub(crate) fn atom(self, colour: u8) -> Atom {
        Atom {
            cell: self.cell,
            colour,
        }
    }
}

/// The mask of a colour alone.
pub(crate) fn bit(colour: u8) -> u16 {
    if colour < MAX_COLOURS { 1 << colour } else { 0 }
}

/// Whether a mask has a colour.
pub(crate) fn has(mask: u16, colour: u8) -> bool {
    mask & bit(colour) != 0
}

/// The lowest colour of a mask.
pub(crate) fn first_colour(mask: u16) -> u8 {
    mask.trailing_zeros() as u8
}

/// A mask without its lowest colour.
pub(crate) fn without_first(mask: u16) -> u16 {
    mask & mask.wrapping_sub(1)
}

/// Whether a mask has one colour alone.
pub(crate) fn is_settled(mask: u16) -> bool {
    mask.count_ones() == 1
}

/// A number as a `u32`, or the largest `u32` if it is above.
pub(crate) fn small(number: usize) -> u32 {
    u32::try_from(number).unwrap_or(u32::MAX)
}
