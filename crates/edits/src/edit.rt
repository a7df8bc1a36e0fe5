//! What a designer does to a document.

use picture::{Axis, LineId, Rgb};

/// One edit. Rows, columns and the places of lines count from 0, and a colour is its number in the palette.
#[derive(Clone, Copy, Debug, PartialEq, Eq)]
pub enum Edit {
    /// Gives a cell a colour.
    Paint {
        row: u8,
        col: u8,
        colour: u8,
    },
    /// Gives each cell of a rectangle, its corners included, a colour.
    Fill {
        top: u8,
        left: u8,
        bottom: u8,
        right: u8,
        colour: u8,
    },
    /// Gives each cell of one colour another colour.
    Recolour {
        source: u8,
        target: u8,
    },
    /// Inserts a line of background at a place, at most that after the last line. Later lines move one place on.
    InsertLine {
        line: LineId,
    },
    /// Deletes a line, which may not be the only one of its axis. Later lines move one place back.
    DeleteLine {
        line: LineId,
    },
    /// Exchanges two lines of an axis.
    SwapLines {
        axis: Axis,
        first: u8,
        second: u8,
    },
    /// Adds a colour to the palette, with the next number.
    AddColour {
        rgb: Rgb,
    },
    /// Gives a number of the palette, other than that of the background, another colour.
    SetColour {
        colour: u8,
        rgb: Rgb,
    },
    /// Makes a cell a given: its colour is printed as part of the puzzle.
    Pin {
        row: u8,
        col: u8,
    },
    /// Makes a given an ordinary cell again.
    Unpin {
        row: u8,
        col: u8,
    },
}
