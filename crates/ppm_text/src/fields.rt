//! The fields of a P3 text: sizes, samples and triples, each with its check.

ghost use Rattle.std.specs.Prelude.{◌≡◌, ◌<◌, ◌≤◌, IfOk, IsTrue};
ghost use Rattle.picture.specs.Palette.{fits};
ghost use Rattle.picture.specs.Readers.{Reads};
ghost use Rattle.ppm_text.specs.Samples.{side_at, sample_at, samples_at};

use crate::fault::{PpmFault, Read};
use crate::scanner::{Numeral, Scanner};
use picture::{MAX_SIDE, Rgb};

/// A colour, and the byte at which its first sample begins.
#[derive(Clone, Copy, Drop)]
pub struct Triple {
    pub place: usize,
    pub colour: Rgb,
}

#[tactic(auto, using(crate::proofs::Caps::caps))]
/// Reads the width or the height, from 1 to 120.
pub fn read_side(scanner: &mut Scanner) -> Read<u8>
    ensures read { Reads (λ side. (side, scanner.new.tokens)) result
        (side_at scanner.old.end scanner.old.tokens) }
    ensures within { IfOk result (λ side. (0 < side) × (side ≤ MAX_SIDE)) }
    ensures end { scanner.new.end ≡ scanner.old.end }
{
    let Numeral { place, value } = scanner.numeral()?;
    if value == 0 {
        return Err(PpmFault::EmptySize(place));
    }
    if value > u32::from(MAX_SIDE) {
        return Err(PpmFault::TooLarge(place));
    }
    Ok(value as u8)
}

#[tactic(auto, using(crate::proofs::Caps::caps))]
#[inline(always)]
// Reads a sample up to the maxval: the byte at which it begins, and its value.
fn read_sample(scanner: &mut Scanner, maxval: u16) -> Read<(usize, u16)>
    ensures read { Reads (λ n. (record { place = n.0; value = n.1 }, scanner.new.tokens)) result
        (sample_at scanner.old.end maxval scanner.old.tokens) }
    ensures within { IfOk result (λ n. n.1 ≤ maxval) }
    ensures end { scanner.new.end ≡ scanner.old.end }
{
    let sample = scanner.numeral()?;
    if sample.value > u32::from(maxval) {
        return Err(PpmFault::SampleOver(sample.place));
    }
    Ok((sample.place, sample.value as u16))
}

#[tactic(auto, unfolding(crate::specs::Samples::samples_at))]
/// Reads the three samples of a colour. After an error the scanner's place is unspecified.
pub fn read_triple(scanner: &mut Scanner, maxval: u16) -> Read<Triple>
    ensures read { Reads (λ t. (t, scanner.new.tokens)) result
        (samples_at scanner.old.end maxval scanner.old.tokens) }
    ensures within { IfOk result (λ t. IsTrue (fits maxval t.colour)) }
    ensures end { scanner.new.end ≡ scanner.old.end }
{
    let (place, r) = read_sample(scanner, maxval)?;
    let (_, g) = read_sample(scanner, maxval)?;
    let (_, b) = read_sample(scanner, maxval)?;
    let colour = Rgb { r, g, b };
    Ok(Triple { place, colour })
}
