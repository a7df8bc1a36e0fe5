//! What is found of a puzzle.

ghost use Rattle.std.specs.Prelude.{◌≡◌};
ghost use Rattle.assess.specs.Assessed.{has_flaw, is_fit, is_unique};

use cert_text::Cert;
use flaws::Alike;
use grade::{Figures, Grade};
use picture::Picture;
use trail::Cell;

/// Whether a puzzle has exactly one solution, has this other one, or is left open by the allowance.
#[derive(Drop)]
pub enum Verdict {
    Unique,
    Ambiguous(Picture),
    Undecided,
}

impl Verdict {
    /// Whether there is exactly one solution.
    pub fn is_unique(&self) -> bool
        ensures { result ≡ is_unique self.now }
    {
        matches!(self, Verdict::Unique)
    }
}

/// What is found of a puzzle: its verdict, its size, colours and givens, the figures of line logic, its grade, and its flaws.
#[derive(Drop)]
pub struct Assessment {
    pub verdict: Verdict,
    pub height: u8,
    pub width: u8,
    /// How many colours cells have, the background among them if a cell has it.
    pub colours: u8,
    pub givens: usize,
    /// The figures of line logic, with how many cells it leaves open.
    pub figures: Figures,
    /// Of a unique puzzle. Where cells are open and no certificate came within the bounds, there is none.
    pub grade: Option<Grade>,
    /// The certificate that was made for the grade, from which its splits and their depth were taken.
    pub cert: Option<Cert>,
    /// No cell has another colour than the background.
    pub is_blank: bool,
    /// No cell has the background.
    pub lacks_background: bool,
    /// Of a unique puzzle: the first given, row by row, that is not needed. Without it there is still one solution, and line logic
    /// leaves the same cells open.
    pub spare: Option<Cell>,
    /// The colours that look alike.
    pub alike: Vec<Alike>,
}

impl Assessment {
    /// Whether the puzzle is fit to be published: unique, and without a flaw.
    pub fn is_fit(&self) -> bool
        ensures { result ≡ is_fit self.now }
    {
        self.verdict.is_unique() && !self.has_flaw()
    }

    /// Whether the puzzle is blank, no cell has the background, a given is not needed, or colours look alike.
    pub fn has_flaw(&self) -> bool
        ensures { result ≡ has_flaw self.now }
    {
        self.is_blank || self.lacks_background || self.spare.is_some() || !self.alike.is_empty()
    }
}
