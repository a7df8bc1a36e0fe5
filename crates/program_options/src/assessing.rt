//! The options of an assessment.

use picture::Rgb;

/// How the files of puzzles are read and assessed.
#[derive(Clone, Copy, Debug, PartialEq, Eq)]
pub struct AssessOptions {
    /// Whether the files are .non texts; else they are P3 texts.
    pub non: bool,
    /// The colour of the background in a P3 text, white where it is not given.
    pub background: Option<Rgb>,
    /// How many splits the search of a part may make, where that is bounded.
    pub allowance: Option<u32>,
}
