//! The colours of a picture, by their numbers.

ghost use Rattle.std.specs.Prelude.{◌≡◌, ◌<◌, [], ◌∷◌, true, false, length, slice_get, IfOk, IfErr, IsOk, OnOk, OnErr};
ghost use Rattle.std.specs.List.{list_any};
ghost use Rattle.picture.specs.declared.palette.PaletteFault.TheVariants.{Memory};
ghost use Rattle.picture.specs.Palette.{first_of, triple_at, place_of, with_colour, with_triple, without_last, only_background, start_fault, add_fault, set_fault, stands_elsewhere, rgb_eq, fits, IsPalette, HasPlaceFor};
ghost use Rattle.picture.specs.Document.{with_seen, number_among};
ghost use Rattle.picture.specs.Readers.{Refuses};

use crate::picture::MAX_COLOURS;
use crate::rgb::Rgb;
use indexmap::IndexSet;
use std::alloc::{AllocError, AllocFailed, Global};
use std::marker::Model;
use thiserror::Error;

/// Why a palette refused a colour: the first of these that holds.
#[derive(Clone, Copy, Debug, PartialEq, Eq, Error)]
pub enum PaletteFault {
    /// There are 16 colours already.
    #[error("the palette has 16 colours already")]
    Full,
    /// The palette has the colour at another number.
    #[error("the colour stands at another number")]
    Duplicate,
    /// A sample is above the maxval.
    #[error("a sample is above the maxval")]
    SampleOver,
    /// The number is 0: the background keeps its colour.
    #[error("the background keeps its colour")]
    Background,
    /// Memory ran out.
    #[error("out of memory")]
    Memory,
}

impl<T: Drop> From<AllocFailed<T>> for PaletteFault {
    ghost from_gives = { λ _ e. e ≡ Memory };

    fn from(_refused: AllocFailed<T>) -> PaletteFault {
        PaletteFault::Memory
    }
}

/// A palette: from 1 to 16 different colours, numbered from 0, with samples up to a maxval. Number 0 is the background.
#[derive(Drop)]
pub struct Palette {
    maxval: u16,
    colours: IndexSet<Rgb>,
}

impl Model for Palette {
    ghost use Rattle.picture.specs.Palette.{Colours, IsPalette};

    ghost Value = { Colours };

    ghost view = { λ p. record { maxval = p.maxval; triples = p.colours.keys } };

    ghost invariant = { λ p. IsPalette (record { maxval = p.maxval; triples = p.colours.keys }) };
}

impl Palette {
    /// The palette of a background alone; `SampleOver` if a sample of it is above the maxval.
    pub fn start(alloc: Global, maxval: u16, background: Rgb) -> Result<Palette, PaletteFault>
        requires { 0 < maxval }
        ensures ok { IfOk result (λ p. p ≡ only_background maxval background) }
        ensures fault { Refuses PaletteFault.Memory result (start_fault maxval background) }
    {
        if !within(maxval, background) {
            return Err(PaletteFault::SampleOver);
        }
        let mut colours = IndexSet::new(alloc);
        colours.insert(background)?;
        Ok(Palette { maxval, colours })
    }

    /// The largest value that a sample can have, from 1 to 65,535.
    pub fn maxval(&self) -> u16
        ensures value { result ≡ self.now.maxval }
        ensures palette { IsPalette self.now }
    {
        self.maxval
    }

    /// How many colours there are, from 1 to 16.
    pub fn len(&self) -> u8
        ensures value { result ≡ length self.now.triples }
        ensures palette { IsPalette self.now }
    {
        self.colours.len() as u8
    }

    /// The colour with a number.
    pub fn rgb(&self, number: u8) -> Rgb
        requires { number < length self.now.triples }
        ensures value { result ≡ triple_at self.now.triples number }
        ensures stands { slice_get self.now.triples number ≡ Some result }
        ensures palette { IsPalette self.now }
    {
        self.colours.as_slice()[number as usize]
    }

    /// The number of a colour, where the palette has it.
    pub fn number_of(&self, rgb: Rgb) -> Option<u8>
        ensures value { result ≡ place_of rgb self.now.triples }
        ensures palette { IsPalette self.now }
    {
        let index = self.colours.get_index_of(&rgb)?;
        Some(index as u8)
    }

    /// Adds a colour and answers its number. After an error the palette is as before.
    pub fn add(&mut self, rgb: Rgb) -> Result<u8, PaletteFault>
        ensures number { IfOk result (λ number. number ≡ length self.old.triples) }
        ensures ok { OnOk result (self.new ≡ with_colour self.old rgb) }
        ensures fault { Refuses PaletteFault.Memory result (add_fault self.old rgb) }
        ensures err { OnErr result (self.new ≡ self.old) }
    {
        if self.colours.len() >= MAX_COLOURS as usize {
            return Err(PaletteFault::Full);
        }
        if self.colours.contains(&rgb) {
            return Err(PaletteFault::Duplicate);
        }
        if !within(self.maxval, rgb) {
            return Err(PaletteFault::SampleOver);
        }
        let number = self.colours.len() as u8;
        self.colours.insert(rgb)?;
        Ok(number)
    }

    /// Gives a number another colour. A number above 0 may get the colour that it has: then nothing changes, and
    /// nothing is allocated. Number 0 is refused. After an error the palette is as before.
    pub fn set(&mut self, number: u8, rgb: Rgb) -> Result<(), PaletteFault>
        requires { number < length self.old.triples }
        ensures ok { OnOk result (self.new ≡ with_triple self.old number rgb) }
        ensures fault { Refuses PaletteFault.Memory result (set_fault self.old number rgb) }
        ensures same { 0 < number → triple_at self.old.triples number ≡ rgb
            → IsOk result × (self.new ≡ self.old) }
        ensures err { OnErr result (self.new ≡ self.old) }
    {
        if self.stands_elsewhere(number, rgb) {
            return Err(PaletteFault::Duplicate);
        }
        if !within(self.maxval, rgb) {
            return Err(PaletteFault::SampleOver);
        }
        if number == 0 {
            return Err(PaletteFault::Background);
        }
        if self.rgb(number) == rgb {
            return Ok(());
        }
        self.replace(number, rgb)
    }

    // A palette with the same maxval and the background alone.
    pub(crate) fn background_alone(&self) -> Result<Palette, AllocError>
        ensures value { IfOk result
            (λ p. p ≡ only_background self.now.maxval (first_of self.now.triples)) }
        ensures palette { IsPalette self.now }
    {
        let mut colours = IndexSet::new(*self.colours.allocator());
        colours.insert(self.rgb(0))?;
        Ok(Palette {
            maxval: self.maxval,
            colours,
        })
    }

    // The number of a colour, which is added where the palette does not have it. All come from one palette, so there
    // is room for it, and the only error is out of memory.
    pub(crate) fn number_for(&mut self, rgb: Rgb) -> Result<u8, AllocError>
        requires { HasPlaceFor self.old rgb }
        ensures palette { OnOk result (self.new ≡ with_seen self.old (rgb ∷ [])) }
        ensures number { IfOk result (λ number. number ≡ number_among self.new.triples rgb) }
    {
        match self.number_of(rgb) {
            Some(number) => Ok(number),
            None => match self.add(rgb) {
                Ok(number) => Ok(number),
                Err(fault) => {
                    prove!(fault == PaletteFault::Memory);
                    Err(AllocError)
                }
            },
        }
    }

    /// Whether another number than this one has the colour.
    pub fn stands_elsewhere(&self, number: u8, rgb: Rgb) -> bool
        requires { number < length self.now.triples }
        ensures value { result ≡ stands_elsewhere self.now.triples number rgb }
        ensures palette { IsPalette self.now }
    {
        self.colours.as_slice()[number as usize] != rgb && self.colours.contains(&rgb)
    }

    // Gives a number a colour that no number has.
    fn replace(&mut self, number: u8, rgb: Rgb) -> Result<(), PaletteFault>
        requires in_palette { number < length self.old.triples }
        requires is_new { list_any (rgb_eq rgb) self.old.triples ≡ false }
        requires in_range { fits self.old.maxval rgb ≡ true }
        ensures ok { OnOk result (self.new ≡ with_triple self.old number rgb) }
        ensures memory { IfErr result (λ e. e ≡ Memory) }
        ensures err { OnErr result (self.new ≡ self.old) }
    {
        self.colours.insert(rgb)?;
        // The last colour, which is the new one, takes the place.
        self.colours.swap_remove_index(number as usize);
        Ok(())
    }

    /// Removes the last colour, which must not be the only one.
    pub fn pop_last(&mut self)
        requires { 1 < length self.old.triples }
        ensures { self.new ≡ without_last self.old }
    {
        self.colours.pop();
    }

    /// A second palette with the same maxval and colours.
    pub fn copy(&self) -> Result<Palette, AllocError>
        ensures { IfOk result (λ p. p ≡ self.now) }
    {
        let colours = self.colours.clone()?;
        Ok(Palette {
            maxval: self.maxval,
            colours,
        })
    }
}

// Whether no sample of a colour is above the maxval.
fn within(maxval: u16, rgb: Rgb) -> bool
    ensures { result ≡ fits maxval rgb }
{
    rgb.r <= maxval && rgb.g <= maxval && rgb.b <= maxval
}
