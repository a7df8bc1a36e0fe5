//! Names of lines.

use anyhow::{Context, Result, bail, ensure};
use picture::{Axis, LineId};
use std::alloc::AllocError;

/// The line that a word names: a row as `r1`, a column as `c2`.
pub fn line_in(word: &str) -> Result<LineId> {
    let (axis, number) = if let Some(number) = word.strip_prefix('r') {
        (Axis::Across, number)
    } else if let Some(number) = word.strip_prefix('c') {
        (Axis::Down, number)
    } else {
        bail!("a line is a row or a column")
    };
    let number: u8 = number.parse().context("the number of a line")?;
    ensure!(0 < number && number <= 120, "lines count from 1 to 120");
    Ok(LineId {
        axis,
        at: number - 1,
    })
}

/// Appends the name of a line to a text.
pub fn push_line(text: &mut String, line: LineId) -> Result<(), AllocError> {
    let letter = match line.axis {
        Axis::Across => 'r',
        Axis::Down => 'c',
    };
    let number = u16::from(line.at) + 1;
    write!(text, "{letter}{number}")
}
