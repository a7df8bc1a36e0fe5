//! The word of a grade.

ghost use Rattle.std.specs.Prelude.{◌≡◌};
ghost use Rattle.grade.specs.Words.{word_of, word_of_lines};

use crate::figures::Figures;

/// How hard a puzzle is, from the easiest on.
#[derive(Clone, Copy, Debug, PartialEq, Eq)]
pub enum Word {
    Easy,
    Medium,
    Hard,
    VeryHard,
    Expert,
}

/// The grade of a puzzle: its figures, the splits and their depth in a certificate, and the word for them.
#[derive(Clone, Copy, Debug, PartialEq, Eq)]
pub struct Grade {
    pub word: Word,
    pub figures: Figures,
    pub splits: u64,
    pub depth: u64,
}

impl Grade {
    /// The grade with these figures. Where no cell is open, there are no splits.
    pub fn of(figures: Figures, splits: u64, depth: u64) -> Grade
        ensures { result ≡ record {
          word = word_of figures splits depth;
          figures = figures;
          splits = splits;
          depth = depth;
        } }
    {
        let word = if figures.open == 0 {
            word_of_lines(figures)
        } else if splits <= 3 && depth <= 2 {
            Word::VeryHard
        } else {
            Word::Expert
        };
        Grade {
            word,
            figures,
            splits,
            depth,
        }
    }
}

// The word where line logic settles all cells.
fn word_of_lines(figures: Figures) -> Word
    ensures { result ≡ word_of_lines figures }
{
    if figures.rounds <= 2 && figures.wait <= 8 {
        Word::Easy
    } else if figures.rounds <= 4 && figures.wait <= 15 {
        Word::Medium
    } else {
        Word::Hard
    }
}
