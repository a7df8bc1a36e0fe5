//! A colour as red, green and blue samples.

/// A colour as its red, green and blue samples, each from 0 to the maxval of its palette.
#[derive(Clone, Copy, Debug, PartialEq, Eq, Hash)]
pub struct Rgb {
    pub r: u16,
    pub g: u16,
    pub b: u16,
}
