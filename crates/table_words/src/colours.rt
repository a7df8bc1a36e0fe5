//! Colours as letters and as triples.

use anyhow::{Result, bail};
use picture::Rgb;

/// The mask of all sixteen colours.
pub const ALL: u16 = u16::MAX;

/// A cell: the number of its colour, and whether it is given.
#[derive(Clone, Copy, Debug, PartialEq, Eq)]
pub struct Cell {
    pub colour: u8,
    pub given: bool,
}

/// The cell that a letter stands for. A capital stands for a given, and so does `,`.
pub fn cell_in(letter: u8) -> Result<Cell> {
    let (colour, given) = match letter {
        b'.' => (0, false),
        b',' => (0, true),
        b'a'..=b'o' => (letter - b'a' + 1, false),
        b'A'..=b'O' => (letter - b'A' + 1, true),
        _ => bail!("no such colour"),
    };
    Ok(Cell { colour, given })
}

/// The letter of a colour.
pub fn letter_of(colour: u8) -> char {
    match colour {
        0 => '.',
        1..=15 => char::from(b'a' + (colour - 1)),
        _ => '?',
    }
}

/// The letter of a given with this colour.
pub fn capital_of(colour: u8) -> char {
    match colour {
        0 => ',',
        1..=15 => char::from(b'A' + (colour - 1)),
        _ => '?',
    }
}

/// The triple of a colour: white, black, red, and then shades of grey.
pub fn triple_of(colour: u8) -> Rgb {
    let grey = u16::from(colour);
    match colour {
        0 => Rgb {
            r: 255,
            g: 255,
            b: 255,
        },
        1 => Rgb { r: 0, g: 0, b: 0 },
        2 => Rgb { r: 255, g: 0, b: 0 },
        _ => Rgb {
            r: grey,
            g: grey,
            b: grey,
        },
    }
}
