//! The numbers of colours, with a cache of those that were met last.

ghost use Rattle.std.specs.Prelude.{◌≡◌, ◌<◌, IsTrue, OnOk};
ghost use Rattle.picture.specs.Palette.{fits};
ghost use Rattle.picture.specs.Readers.{Gives};
ghost use Rattle.ppm_text.specs.declared.fault.PpmFault.TheVariants.{Memory};
ghost use Rattle.ppm_text.specs.NewTriples.{adding_fault};
ghost use Rattle.ppm_text.specs.Known.{AreKnown};
ghost use Rattle.ppm_text.specs.Ppm.{number_with};

use crate::fault::{PpmFault, Read};
use crate::fields::Triple;
use picture::{Palette, PaletteFault, Rgb};

/// How many slots the cache has.
pub const SLOTS: usize = 256;

/// A colour of the palette, and its number.
#[derive(Clone, Copy, Drop)]
pub struct Known {
    pub colour: Rgb,
    pub number: u8,
}

#[tactic(auto, using(crate::proofs::KnownLemmas::background_known))]
/// The cache with the background in every slot.
pub fn background_alone(palette: &Palette) -> [Known; SLOTS]
    ensures { AreKnown palette.now.triples result }
{
    let _ = palette.len();
    let colour = palette.rgb(0);
    [Known { colour, number: 0 }; SLOTS]
}

#[tactic(auto, using(crate::proofs::KnownLemmas::knowing))]
/// The number of a triple in the palette, to which it is added if it is new. The palette is searched
/// only if the colour's slot in the cache holds another colour.
pub fn number_of(palette: &mut Palette, known: &mut [Known; SLOTS], triple: Triple) -> Read<u8>
    requires fits { IsTrue (fits palette.old.maxval triple.colour) }
    requires known { AreKnown palette.old.triples known.old }
    ensures read { Gives Memory (λ number. (number, palette.new)) result
        (number_with palette.old triple) }
    ensures known { OnOk result (AreKnown palette.new.triples known.new) }
{
    let colour = triple.colour;
    let slot = slot_of(colour);
    if known[slot].colour == colour {
        return Ok(known[slot].number);
    }
    let number = find_or_add(palette, triple)?;
    known[slot] = Known { colour, number };
    Ok(number)
}

// The slot of a colour. The factors are odd, so colours that differ in one sample alone mostly have different slots.
fn slot_of(colour: Rgb) -> usize
    ensures { result < SLOTS }
{
    let sum = usize::from(colour.r) * 3 + usize::from(colour.g) * 5 + usize::from(colour.b) * 7;
    sum % SLOTS
}

#[tactic(auto, using(crate::proofs::Adding::refused))]
#[inline(never)]
// The number of a triple in the palette, to which it is added if it is new.
fn find_or_add(palette: &mut Palette, triple: Triple) -> Read<u8>
    requires { IsTrue (fits palette.old.maxval triple.colour) }
    ensures { Gives Memory (λ number. (number, palette.new)) result
        (number_with palette.old triple) }
{
    if let Some(number) = palette.number_of(triple.colour) {
        return Ok(number);
    }
    palette
        .add(triple.colour)
        .map_err(|fault| adding_fault(fault, triple.place))
}

// The error where the palette refuses a new triple with valid samples: it is full, or out of memory.
fn adding_fault(fault: PaletteFault, place: usize) -> PpmFault
    ensures { result ≡ adding_fault fault place }
{
    match fault {
        PaletteFault::Memory => PpmFault::Memory,
        _ => PpmFault::TooManyColours(place),
    }
}
