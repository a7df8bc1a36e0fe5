//! The options of a session on a file, and those of a certificate that is made.

use picture::Rgb;

/// How a session opens its file, and how many edits it can undo.
#[derive(Clone, Copy, Debug, PartialEq, Eq)]
pub struct Options {
    /// Whether the file is a .non text; else it is a P3 text.
    pub non: bool,
    /// The colour of the background in a P3 text, white where it is not given.
    pub background: Option<Rgb>,
    /// How many edits can be undone, 1 to 1,000.
    pub history: u16,
}

/// How a certificate is made of a picture.
#[derive(Clone, Copy, Debug, PartialEq, Eq)]
pub struct ProveOptions {
    /// The colour of the background in the P3 text, white where it is not given.
    pub background: Option<Rgb>,
    /// Whether a certificate with lemmas has a single step on each line, as `nonolemma 1`; else it is `nonolemma 2`.
    pub single: bool,
    /// Whether the search goes on until it has decided; else it has bounds.
    pub complete: bool,
}
