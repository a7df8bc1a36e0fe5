//! Writing a document as a P3 text.

ghost use Rattle.std.specs.Prelude.{◌<◌, length, OnOk, OnErr};
ghost use Rattle.std.specs.Io.KnownBytes.{Appends};
ghost use Rattle.std.specs.List.{flat_map};
ghost use Rattle.picture.specs.Content.{content_of};
ghost use Rattle.picture.specs.Palette.{triple_at};
ghost use Rattle.picture.specs.Rows.{cell_at, row_at, width_of};
ghost use Rattle.picture.specs.Writers.{AppendsFront};
ghost use Rattle.ppm_text.specs.Text.{triple_text, rows_text};
ghost use Rattle.ppm_text.specs.Text.{sizes_text, ppm_text};

use picture::{Document, Rgb, WriteFault, send, send_number};
use std::io::Write;

#[tactic(auto, using(picture::proofs::SendingLaws::sending))]
// Writes a cell's samples as a line.
fn send_triple<W: Write>(rgb: Rgb, writer: &mut W) -> Result<(), WriteFault>
    ensures ok { OnOk result (Appends (W.contents writer.old) (W.contents writer.new)
        (triple_text rgb)) }
    ensures err { OnErr result (AppendsFront (W.contents writer.old) (W.contents writer.new)
        (triple_text rgb)) }
{
    send_number(rgb.r, b' ', writer)?;
    send_number(rgb.g, b' ', writer)?;
    send_number(rgb.b, b'\n', writer)
}

#[tactic(auto, using(picture::proofs::SendingLaws::pieces))]
// Writes a row.
fn send_row<W: Write>(document: &Document, row: u8, writer: &mut W) -> Result<(), WriteFault>
    requires { row < length document.now.picture }
    ensures ok { OnOk result (Appends (W.contents writer.old) (W.contents writer.new)
        (flat_map (λ cell. triple_text (triple_at document.now.palette.triples cell))
        (row_at document.now.picture row))) }
    ensures err { OnErr result (AppendsFront (W.contents writer.old) (W.contents writer.new)
        (flat_map (λ cell. triple_text (triple_at document.now.palette.triples cell))
        (row_at document.now.picture row))) }
{
    for col in 0..document.picture.width() {
        let number = document.picture.cell(row, col);
        send_triple(document.palette.rgb(number), writer)?;
    }
    Ok(())
}

#[tactic(auto, using(crate::proofs::Sending::sizes))]
// Writes the sizes and the maxval.
fn send_sizes<W: Write>(document: &Document, writer: &mut W) -> Result<(), WriteFault>
    ensures ok { OnOk result (Appends (W.contents writer.old) (W.contents writer.new)
        (sizes_text (width_of document.now.picture)
        (length document.now.picture) document.now.palette.maxval)) }
    ensures err { OnErr result (AppendsFront (W.contents writer.old) (W.contents writer.new)
        (sizes_text (width_of document.now.picture)
        (length document.now.picture) document.now.palette.maxval)) }
{
    send_number(u16::from(document.picture.width()), b' ', writer)?;
    send_number(u16::from(document.picture.height()), b'\n', writer)?;
    send_number(document.palette.maxval(), b'\n', writer)
}

#[tactic(auto, using(crate::proofs::Sending::whole))]
/// Writes the document's picture as a plain PPM text: `P3` on a line, the width and the height on a line, the maxval on
/// a line, and then each cell's samples on a line, in row order. Numbers have no leading zeros. After an error a prefix
/// of the text is written. The givens are not written, and neither are colours that no cell has.
pub fn write_ppm<W: Write>(document: &Document, writer: &mut W) -> Result<(), WriteFault>
    ensures ok { OnOk result (Appends (W.contents writer.old) (W.contents writer.new)
        (ppm_text (content_of document.now))) }
    ensures err { OnErr result (AppendsFront (W.contents writer.old) (W.contents writer.new)
        (ppm_text (content_of document.now))) }
{
    send(b"P3\n", writer)?;
    send_sizes(document, writer)?;
    send_rows(document, writer)
}

#[tactic(auto, using(picture::proofs::SendingLaws::pieces))]
// Writes all the rows.
fn send_rows<W: Write>(document: &Document, writer: &mut W) -> Result<(), WriteFault>
    ensures ok { OnOk result (Appends (W.contents writer.old) (W.contents writer.new)
        (rows_text document.now.palette.triples document.now.picture)) }
    ensures err { OnErr result (AppendsFront (W.contents writer.old) (W.contents writer.new)
        (rows_text document.now.palette.triples document.now.picture)) }
{
    for row in 0..document.picture.height() {
        send_row(document, row, writer)?;
    }
    Ok(())
}
