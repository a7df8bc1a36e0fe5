//! A picture with its palette and its givens.

ghost use Rattle.std.specs.Prelude.{◌≡◌, IfOk};
ghost use Rattle.picture.specs.Document.{AreColoured, AreInside};

use crate::cell_set::CellSet;
use crate::palette::Palette;
use crate::picture::Picture;
use std::alloc::AllocError;

/// A picture in its palette's colours. Givens are cells whose colours are published with the clues.
#[derive(Drop)]
pub struct Document {
    pub palette: Palette,
    pub picture: Picture,
    pub givens: CellSet,
    pub ghost coloured: { AreColoured picture palette },
    pub ghost inside: { AreInside givens picture },
}

impl Document {
    /// A second document with the same palette, picture and givens.
    pub fn copy(&self) -> Result<Document, AllocError>
        ensures palette { IfOk result (λ d. d.palette ≡ self.now.palette) }
        ensures picture { IfOk result (λ d. d.picture ≡ self.now.picture) }
        ensures givens { IfOk result (λ d. d.givens ≡ self.now.givens) }
    {
        let palette = self.palette.copy()?;
        let picture = self.picture.copy()?;
        Ok(Document {
            palette,
            picture,
            givens: self.givens,
        })
    }
}
