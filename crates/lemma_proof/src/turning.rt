//! The eight ways in which a picture can lie: proofs are sought in one of them, so that they have as many lines for each.

use cert_text::{CellNumber, CertLine, LineNumber, Literal};
use picture::{Axis, CellSet, LineId, MAX_COLOURS, MAX_SIDE, Picture};
use std::alloc::{AllocError, Global};

// How many ways there are.
const WAYS: u8 = 8;

// How many colours a picture can have.
const COLOURS: usize = MAX_COLOURS as usize;

// Of a colour that has no number yet.
const NONE: u8 = u8::MAX;

/// One of the ways in which a picture can lie: its rows counted from the bottom, its columns from the right, rows and columns
/// exchanged, or not. Its colours but background have new numbers, from 1 in the order in which they come row by row.
#[derive(Clone, Copy)]
pub(crate) struct Turn {
    height: u8,
    width: u8,
    from_bottom: bool,
    from_right: bool,
    exchanges: bool,
    // For each colour of the picture its new number.
    numbers: [u8; COLOURS],
}

impl Turn {
    // The way with a number: 0 is the picture as it is, but for its colours.
    fn numbered(picture: &Picture, number: u8) -> Turn {
        let mut turn = Turn {
            height: picture.height(),
            width: picture.width(),
            from_bottom: number & 1 != 0,
            from_right: number & 2 != 0,
            exchanges: number & 4 != 0,
            numbers: [NONE; COLOURS],
        };
        turn.number_colours(picture);
        turn
    }

    fn number_colours(&mut self, picture: &Picture) {
        let mut count = self.give(0, 0);
        let (rows, columns) = self.size();
        for row in 0..rows {
            for col in 0..columns {
                let next = colour(picture, self.cell(row, col));
                count = self.give(next, count);
            }
        }
        for unused in 0..MAX_COLOURS {
            count = self.give(unused, count);
        }
    }

    // Gives a colour that has none this number, and answers the next number.
    fn give(&mut self, colour: u8, number: u8) -> u8 {
        match self.numbers.get_mut(usize::from(colour)) {
            Some(slot) if *slot == NONE => {
                *slot = number;
                number.saturating_add(1)
            }
            _ => number,
        }
    }

    fn number(self, colour: u8) -> u8 {
        self.numbers.get(usize::from(colour)).copied().unwrap_or(0)
    }

    /// The way that all turns of a picture share: with the fewest rows and, row by row, the greatest numbers of colours.
    pub(crate) fn shared(picture: &Picture) -> Turn {
        let mut shared = Turn::numbered(picture, 0);
        for number in 1..WAYS {
            let turn = Turn::numbered(picture, number);
            if turn.is_before(shared, picture) {
                shared = turn;
            }
        }
        shared
    }

    // How many rows and columns lie so.
    fn size(self) -> (u8, u8) {
        if self.exchanges {
            (self.width, self.height)
        } else {
            (self.height, self.width)
        }
    }

    // Whether this way is taken before another one.
    fn is_before(self, other: Turn, picture: &Picture) -> bool {
        let (rows, columns) = self.size();
        if rows != other.size().0 {
            return rows < other.size().0;
        }
        for row in 0..rows {
            for col in 0..columns {
                let mine = self.number(colour(picture, self.cell(row, col)));
                let others = other.number(colour(picture, other.cell(row, col)));
                if mine != others {
                    return mine > others;
                }
            }
        }
        false
    }

    // The line of the picture that lies in the place of a line.
    fn line(self, line: LineId) -> LineId {
        let axis = if self.exchanges {
            line.axis.crossing()
        } else {
            line.axis
        };
        let (count, from_end) = match axis {
            Axis::Across => (self.height, self.from_bottom),
            Axis::Down => (self.width, self.from_right),
        };
        let at = if from_end {
            count.saturating_sub(1).saturating_sub(line.at)
        } else {
            line.at
        };
        LineId { axis, at }
    }

    // The row and the column of the picture's cell that lies in the place of a cell.
    fn cell(self, row: u8, col: u8) -> (u8, u8) {
        let row = self.line(LineId {
            axis: Axis::Across,
            at: row,
        });
        let col = self.line(LineId {
            axis: Axis::Down,
            at: col,
        });
        match row.axis {
            Axis::Across => (row.at, col.at),
            Axis::Down => (col.at, row.at),
        }
    }

    /// The picture as it lies so.
    pub(crate) fn laid(self, alloc: Global, picture: &Picture) -> Result<Picture, AllocError> {
        let mut laid = if self.exchanges {
            Picture::blank(alloc, picture.width(), picture.height())?
        } else {
            Picture::blank(alloc, picture.height(), picture.width())?
        };
        for row in 0..laid.height() {
            for col in 0..laid.width() {
                let from = colour(picture, self.cell(row, col));
                paint(&mut laid, row, col, self.number(from));
            }
        }
        Ok(laid)
    }

    /// The way back: a picture that lies so, laid in that way, is as it was.
    pub(crate) fn back(self) -> Turn {
        let mut back = self;
        for colour in 0..MAX_COLOURS {
            if let Some(slot) = back.numbers.get_mut(usize::from(self.number(colour))) {
                *slot = colour;
            }
        }
        if self.exchanges {
            (back.height, back.width) = (self.width, self.height);
            (back.from_bottom, back.from_right) = (self.from_right, self.from_bottom);
        }
        back
    }

    /// The places in which some cells lie.
    pub(crate) fn laid_cells(self, cells: &CellSet) -> CellSet {
        let mut laid = CellSet::empty();
        let (rows, columns) = self.size();
        for row in 0..rows.min(MAX_SIDE) {
            for col in 0..columns.min(MAX_SIDE) {
                let (from, at) = self.cell(row, col);
                if from < MAX_SIDE && at < MAX_SIDE && cells.has(from, at) {
                    laid.put(row, col);
                }
            }
        }
        laid
    }

    /// Names in each step the picture's lines, cells and colours that lie where it names some.
    pub(crate) fn raise(self, steps: &mut Vec<CertLine>) {
        for step in steps.iter_mut() {
            *step = match *step {
                CertLine::Line(line) => CertLine::Line(self.raised_line(line)),
                CertLine::Dead(line) => CertLine::Dead(self.raised_line(line)),
                CertLine::Part(literal) => CertLine::Part(self.raised(literal)),
                CertLine::Deny(literal) => CertLine::Deny(self.raised(literal)),
                other => other,
            };
        }
    }

    fn raised_line(self, line: LineNumber) -> LineNumber {
        let line = self.line(LineId {
            axis: line.axis,
            at: place(line.number),
        });
        LineNumber {
            axis: line.axis,
            number: u16::from(line.at) + 1,
        }
    }

    fn raised(self, literal: Literal) -> Literal {
        let (row, col) = self.cell(place(literal.cell.row), place(literal.cell.col));
        let mut colours = 0;
        for colour in 0..MAX_COLOURS {
            if literal.colours >> (self.number(colour) & 15) & 1 == 1 {
                colours |= 1 << colour;
            }
        }
        Literal {
            cell: CellNumber {
                row: u16::from(row) + 1,
                col: u16::from(col) + 1,
            },
            colours,
        }
    }
}

// The place of a line with a number. No picture has one with a number above 255.
fn place(number: u16) -> u8 {
    number.saturating_sub(1).min(255) as u8
}

// The colour of a cell, 0 outside the picture.
fn colour(picture: &Picture, cell: (u8, u8)) -> u8 {
    if cell.0 < picture.height() && cell.1 < picture.width() {
        picture.cell(cell.0, cell.1)
    } else {
        0
    }
}

// Paints a cell that the picture has.
fn paint(picture: &mut Picture, row: u8, col: u8, colour: u8) {
    if row < picture.height() && col < picture.width() && colour < MAX_COLOURS {
        picture.set(row, col, colour);
    }
}
