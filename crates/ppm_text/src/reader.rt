//! Reading a P3 text as a document.

ghost use Rattle.std.specs.Prelude.{◌≡◌, ℕ, ◌*◌, ◌<◌, ◌≤◌, length, slice_index, IfErr, IfOk, OnOk};
ghost use Rattle.std.specs.Result.{result_err};
ghost use Rattle.picture.specs.CellSet.{no_cells};
ghost use Rattle.picture.specs.Rows.{rows_of};
ghost use Rattle.picture.specs.Content.{content_of};
ghost use Rattle.picture.specs.Readers.{Gives, Refuses};
ghost use Rattle.ppm_text.specs.declared.fault.PpmFault.TheVariants.{Memory};
ghost use Rattle.ppm_text.specs.Known.{AreKnown};
ghost use Rattle.ppm_text.specs.Ppm.{palette_at, number_at, numbers_at, header_of, ppm_of};

use crate::fault::{PpmFault, Read};
use crate::fields::{read_side, read_triple};
use crate::known::{Known, SLOTS, background_alone, number_of};
use crate::scanner::{Numeral, Scanner};
use picture::{CellSet, Document, MAX_SIDE, Palette, PaletteFault, Picture, Rgb};
use std::alloc::Global;

#[tactic(auto, using(crate::proofs::Caps::palette_caps))]
// Reads the maxval, and begins the palette with the background that was passed, or else with white.
fn read_palette(alloc: Global, scanner: &mut Scanner, background: Option<Rgb>) -> Read<Palette>
    ensures read { Gives Memory (λ p. (p, scanner.new.tokens)) result
        (palette_at background scanner.old.end scanner.old.tokens) }
    ensures fault { Refuses Memory result
        (result_err (palette_at background scanner.old.end scanner.old.tokens)) }
    ensures end { scanner.new.end ≡ scanner.old.end }
{
    let Numeral { place, value } = scanner.numeral()?;
    if value == 0 || value > u32::from(u16::MAX) {
        return Err(PpmFault::BadMaxval(place));
    }
    let maxval = value as u16;
    let white = Rgb {
        r: maxval,
        g: maxval,
        b: maxval,
    };
    match Palette::start(alloc, maxval, background.unwrap_or(white)) {
        Ok(palette) => Ok(palette),
        Err(PaletteFault::Memory) => Err(PpmFault::Memory),
        Err(_) => Err(PpmFault::SampleOver(place)),
    }
}

#[tactic(auto, unfolding(crate::specs::Ppm::number_at))]
// Reads a cell's triple, and gives its number.
fn read_cell(scanner: &mut Scanner, palette: &mut Palette, known: &mut [Known; SLOTS]) -> Read<u8>
    requires { AreKnown palette.old.triples known.old }
    ensures read { Gives Memory (λ number. (number, palette.new, scanner.new.tokens)) result
        (number_at scanner.old.end palette.old scanner.old.tokens) }
    ensures known { OnOk result (AreKnown palette.new.triples known.new) }
    ensures end { scanner.new.end ≡ scanner.old.end }
{
    let maxval = palette.maxval();
    let triple = read_triple(scanner, maxval)?;
    number_of(palette, known, triple)
}

#[tactic(auto, using(crate::proofs::Cells::cell_loop))]
// Reads `count` cells.
fn read_cells(
    alloc: Global,
    scanner: &mut Scanner,
    palette: &mut Palette,
    count: usize,
) -> Read<Vec<u8>>
    ensures read { Gives Memory (λ cells. (cells.items, palette.new, scanner.new.tokens)) result
        (numbers_at scanner.old.end count palette.old scanner.old.tokens) }
    ensures end { scanner.new.end ≡ scanner.old.end }
{
    let mut cells = Vec::with_capacity(alloc, count)?;
    let mut known = background_alone(palette);
    for _ in 0..count {
        let cell = read_cell(scanner, palette, &mut known)?;
        cells.push(cell).map_err(|_| PpmFault::Memory)?;
    }
    Ok(cells)
}

#[tactic(auto, using(crate::proofs::Cells::read_cells, picture::proofs::FlatLaws::cell_at_below), unfolding(crate::specs::Ppm::ppm_of, crate::specs::Ppm::header_of))]
/// Reads a plain PPM text (P3) whole: the magic, the width and the height from 1 to 120, the maxval
/// from 1 to 65535, and the samples of each cell in row order, each a decimal number of any length.
///
/// White space is space, TAB, LF, VT, FF and CR. A comment from `#` to the next LF or CR, or to the end of the text,
/// counts as white space anywhere after the magic. Lines may have any length.
///
/// The first colour, number 0, is the background that was passed, or else white. The others are numbered by first
/// appearance in row order, up to 16 in all. No cell is a given.
///
/// The text is read from the front, and the first error is returned, with its byte offset. A background with a sample
/// above the maxval is refused at the maxval. No memory is allocated before the maxval has been read, so an error up
/// to there is returned even if there is no memory.
pub fn read_ppm(alloc: Global, bytes: &[u8], background: Option<Rgb>) -> Result<Document, PpmFault>
    ensures read { Gives Memory content_of result (ppm_of bytes.now background) }
    ensures header { IfErr (header_of bytes.now background) (λ fault. result ≡ Err fault) }
{
    let mut scanner = Scanner::start(bytes)?;
    let width = read_side(&mut scanner)?;
    let height = read_side(&mut scanner)?;
    let mut palette = read_palette(alloc, &mut scanner, background)?;
    let count = usize::from(height) * usize::from(width);
    let cells = read_cells(alloc, &mut scanner, &mut palette, count)?;
    if let Some(place) = scanner.next_place() {
        return Err(PpmFault::TrailingToken(place));
    }
    let _ = palette.len();
    Ok(Document {
        palette,
        picture: Picture::from_cells(height, width, cells),
        givens: CellSet::empty(),
    })
}
