//! The ordered form of a document.

ghost use Rattle.std.specs.Prelude.{◌≡◌, IfOk};
ghost use Rattle.picture.specs.Content.{content_of};
ghost use Rattle.picture.specs.Document.{ordered_of, rows_shown};

use crate::document::Document;
use std::alloc::AllocError;

impl Document {
    /// The ordered form: after the background the colours are numbered by first appearance, row after row from
    /// the top, and others that no cell has are left out. Each cell keeps its colour, and the givens stay.
    pub fn ordered(&self) -> Result<Document, AllocError>
        ensures content { IfOk result (λ d. content_of d ≡ ordered_of (content_of self.now)) }
        ensures shown { IfOk result (λ d. rows_shown d.palette.triples d.picture
            ≡ rows_shown self.now.palette.triples self.now.picture) }
    {
        let mut palette = self.palette.background_alone()?;
        let picture = self.picture.renumbered(&self.palette, &mut palette)?;
        Ok(Document {
            palette,
            picture,
            givens: self.givens,
        })
    }
}
