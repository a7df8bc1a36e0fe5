//! Lines that a change touches.

ghost use Rattle.std.specs.Prelude.{◌≡◌};
ghost use Rattle.clues.specs.Change.{IsChangeOf, lines_after};

use crate::lines::push_line;
use clues::Change;
use picture::{Axis, LineId, Picture};
use std::alloc::AllocError;

/// Appends to a text the names of the new picture's lines that the change from the old one touches, each with a space
/// before it.
pub fn push_touched(
    text: &mut String,
    old: &Picture,
    new: &Picture,
    change: &Change,
) -> Result<(), AllocError>
    requires { IsChangeOf change.now old.now new.now }
{
    let _ = old.height();
    let (height, width) = (new.height(), new.width());
    push_along(text, change, Axis::Across, height)?;
    push_along(text, change, Axis::Down, width)
}

// The touched lines along an axis.
fn push_along(text: &mut String, change: &Change, axis: Axis, count: u8) -> Result<(), AllocError>
    requires { count ≡ lines_after axis change.now.moves }
{
    for at in 0..count {
        let line = LineId { axis, at };
        if change.touched(line) {
            text.push(' ')?;
            push_line(text, line)?;
        }
    }
    Ok(())
}
