//! A palette as text: which colour each letter is.

ghost use Rattle.std.specs.Prelude.{◌≡◌, ◌<◌, ◌++◌, length, IfOk, OnOk};
ghost use Rattle.report_text.specs.Report.{palette_line, palette_lines, palette_text};

use crate::report::push_colour;
use picture::{Palette, Rgb};
use std::alloc::{AllocError, Global};

/// Which colour each letter is, as `colour . 255 255 255`: a line for each colour, the background first.
pub fn palette_text(alloc: Global, palette: &Palette) -> Result<Vec<u8>, AllocError>
    ensures { IfOk result (λ text. text.items ≡ palette_text palette.now) }
{
    let mut text = Vec::new(alloc);
    push_palette(&mut text, palette)?;
    Ok(text)
}

// Appends the lines.
fn push_palette(text: &mut Vec<u8>, palette: &Palette) -> Result<(), AllocError>
    ensures { OnOk result (text.new.items
        ≡ text.old.items ++ palette_lines palette.now.triples (length palette.now.triples)) }
{
    for number in 0..palette.len() {
        push_line(text, number, palette.rgb(number))?;
    }
    Ok(())
}

#[tactic(auto, using(std::proofs::lemmas::List::append_assoc))]
// The line of a colour.
fn push_line(text: &mut Vec<u8>, number: u8, rgb: Rgb) -> Result<(), AllocError>
    requires { number < 16 }
    ensures { OnOk result (text.new.items ≡ text.old.items ++ palette_line number rgb) }
{
    text.extend_from_slice(b"colour ")?;
    push_colour(text, number, rgb)
}
