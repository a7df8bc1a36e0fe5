//! Edits in the words of a session.

use crate::colours::cell_in;
use anyhow::{Context, Result, bail, ensure};
use edits::Edit;
use picture::{Axis, LineId, Rgb};

/// The edit that words ask for, as in a session.
pub fn edit_in(words: &[&str]) -> Result<Edit> {
    match words {
        ["paint", row, col, colour] => paint_in(row, col, colour),
        ["fill", top, left, bottom, right, colour] => fill_in([top, left, bottom, right], colour),
        ["recolour", source, target] => recolour_in(source, target),
        ["colour", words @ ..] => palette_edit_in(words),
        ["pin" | "unpin", row, col] => pin_in(words[0] == "pin", row, col),
        [_, "row", places @ ..] => line_edit_in(words[0], Axis::Across, places),
        [_, "column", places @ ..] => line_edit_in(words[0], Axis::Down, places),
        _ => bail!("an edit"),
    }
}

// A cell gets a colour.
fn paint_in(row: &str, col: &str, colour: &str) -> Result<Edit> {
    Ok(Edit::Paint {
        row: place_in(row)?,
        col: place_in(col)?,
        colour: colour_in(colour)?,
    })
}

// The cells between two rows and two columns get a colour.
fn fill_in(places: [&str; 4], colour: &str) -> Result<Edit> {
    let [top, left, bottom, right] = places;
    Ok(Edit::Fill {
        top: place_in(top)?,
        left: place_in(left)?,
        bottom: place_in(bottom)?,
        right: place_in(right)?,
        colour: colour_in(colour)?,
    })
}

// Cells of one colour get another one.
fn recolour_in(source: &str, target: &str) -> Result<Edit> {
    Ok(Edit::Recolour {
        source: colour_in(source)?,
        target: colour_in(target)?,
    })
}

// A colour is added to the palette, or one of its colours is changed.
fn palette_edit_in(words: &[&str]) -> Result<Edit> {
    match words {
        ["add", r, g, b] => Ok(Edit::AddColour {
            rgb: triple_in(r, g, b)?,
        }),
        ["set", colour, r, g, b] => Ok(Edit::SetColour {
            colour: colour_in(colour)?,
            rgb: triple_in(r, g, b)?,
        }),
        _ => bail!("colour add R G B or colour set COLOUR R G B"),
    }
}

// A cell is pinned or unpinned.
fn pin_in(is_pinned: bool, row: &str, col: &str) -> Result<Edit> {
    let (row, col) = (place_in(row)?, place_in(col)?);
    if is_pinned {
        Ok(Edit::Pin { row, col })
    } else {
        Ok(Edit::Unpin { row, col })
    }
}

// A line is inserted or deleted, or two are swapped.
fn line_edit_in(what: &str, axis: Axis, places: &[&str]) -> Result<Edit> {
    match (what, places) {
        ("insert", [at]) => Ok(Edit::InsertLine {
            line: LineId {
                axis,
                at: place_in(at)?,
            },
        }),
        ("delete", [at]) => Ok(Edit::DeleteLine {
            line: LineId {
                axis,
                at: place_in(at)?,
            },
        }),
        ("swap", [first, second]) => Ok(Edit::SwapLines {
            axis,
            first: place_in(first)?,
            second: place_in(second)?,
        }),
        _ => bail!("insert, delete or swap"),
    }
}

// A place, which counts from 1.
fn place_in(word: &str) -> Result<u8> {
    let place: u8 = word.parse().context("a place")?;
    ensure!(0 < place, "places count from 1");
    Ok(place - 1)
}

// The colour of a letter.
fn colour_in(word: &str) -> Result<u8> {
    let letter = word.bytes().next().context("a colour")?;
    Ok(cell_in(letter)?.colour)
}

// The triple of three samples.
fn triple_in(r: &str, g: &str, b: &str) -> Result<Rgb> {
    Ok(Rgb {
        r: sample_in(r)?,
        g: sample_in(g)?,
        b: sample_in(b)?,
    })
}

// One sample.
fn sample_in(word: &str) -> Result<u16> {
    word.parse().context("a sample")
}
