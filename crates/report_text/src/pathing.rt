//! A path as text: a line for each look that excluded something.

ghost use Rattle.std.specs.Prelude.{◌≡◌, ◌++◌, OnOk};
ghost use Rattle.std.specs.List.{flat_map};
ghost use Rattle.report_text.specs.PathText.{fall_text, look_text, path_text, stands_text};

use crate::clue_text::letter_of;
use crate::numbers::push_numbers;
use crate::reason_text::push_premises;
use crate::shown::colour_letter;
use grade::{Advance, Fall, Path};
use std::alloc::AllocError;

#[tactic(auto, using(std::proofs::lemmas::List::append_assoc))]
/// Appends a path to a text: a line for each look, as `r 2 1 2 1=a 3=. stands given 2=a`, and how many cells are open. Where memory
/// is refused, a part may have been appended.
pub fn push_path(text: &mut Vec<u8>, path: &Path) -> Result<(), AllocError>
    ensures { OnOk result (text.new.items
        ≡ text.old.items ++ path_text path.now.looks.items path.now.«open») }
{
    for look in &path.looks {
        push_look(text, look)?;
    }
    text.extend_from_slice(b"open")?;
    push_numbers(text, &[path.open])?;
    Ok(text.push(b'\n')?)
}

#[tactic(auto, using(std::proofs::lemmas::List::append_assoc))]
// A look: its line, the round, how many exclusions it made, the cells that fell, whether all blocks of the line stood before, and
// the premises.
fn push_look(text: &mut Vec<u8>, look: &Advance) -> Result<(), AllocError>
    ensures { OnOk result (text.new.items ≡ text.old.items ++ look_text look.now) }
{
    let line = look.line();
    text.push(letter_of(line.axis))?;
    let number = u64::from(line.at) + 1;
    push_numbers(text, &[number, look.round(), u64::from(look.excluded())])?;
    push_falls(text, look.falls())?;
    push_stands(text, look.stands())?;
    push_premises(text, look.premises())?;
    Ok(text.push(b'\n')?)
}

// A word where all blocks of the line stood before the look.
fn push_stands(text: &mut Vec<u8>, stands: bool) -> Result<(), AllocError>
    ensures { OnOk result (text.new.items ≡ text.old.items ++ stands_text stands) }
{
    if stands {
        text.extend_from_slice(b" stands")?;
    }
    Ok(())
}

// The cells that fell.
fn push_falls(text: &mut Vec<u8>, falls: &[Fall]) -> Result<(), AllocError>
    ensures { OnOk result (text.new.items ≡ text.old.items ++ flat_map fall_text falls.now) }
{
    for fall in falls {
        push_fall(text, *fall)?;
    }
    Ok(())
}

#[tactic(auto, using(std::proofs::lemmas::List::append_assoc))]
// A cell that fell: its place along the line, from 1, and the letter of its colour.
fn push_fall(text: &mut Vec<u8>, fall: Fall) -> Result<(), AllocError>
    ensures { OnOk result (text.new.items ≡ text.old.items ++ fall_text fall) }
{
    push_numbers(text, &[u64::from(fall.place) + 1])?;
    text.push(b'=')?;
    Ok(text.push(colour_letter(fall.colour))?)
}
