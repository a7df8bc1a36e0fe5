//! The writer of .non texts.

ghost use Rattle.std.specs.Prelude.{◌≡◌, nat_le};
ghost use Rattle.std.specs.List.{list_all};
ghost use Rattle.non_text.specs.WrittenNon.{is_two_colour, WritesNon};

use crate::fault::NonWriteFault;
use crate::text::non_text_of;
use picture::{Axis, LineId, LineView, Picture, send};
use std::alloc::Global;
use std::io::Write;

/// Writes the .non text of a picture in two colours: its size, its clues and itself as the goal.
///
/// The whole text is made before the first byte is written. So a refusal or running out of memory leaves the writer as
/// it was.
pub fn write_non<W: Write>(
    alloc: Global,
    picture: &Picture,
    writer: &mut W,
) -> Result<(), NonWriteFault>
    ensures { WritesNon picture.now (W.contents writer.old) (W.contents writer.new) result }
{
    if !is_two_colour(picture) {
        return Err(NonWriteFault::TwoColoursOnly);
    }
    let text = non_text_of(alloc, picture).map_err(|_| NonWriteFault::Memory)?;
    send(&text, writer).map_err(|_| NonWriteFault::Write)
}

#[tactic(auto, using(crate::proofs::TextLemmas::rows))]
// Whether no cell has a colour above 1.
fn is_two_colour(picture: &Picture) -> bool
    ensures { result ≡ is_two_colour picture.now }
{
    let axis = Axis::Across;
    for at in 0..picture.height() {
        if !is_two_colour_row(picture.line(LineId { axis, at })) {
            return false;
        }
    }
    true
}

// Whether no cell of a row has a colour above 1.
fn is_two_colour_row(row: LineView<'_>) -> bool
    ensures { result ≡ list_all (λ cell. nat_le cell 1) row.entry }
{
    for cell in row.iter() {
        if cell > 1 {
            return false;
        }
    }
    true
}
