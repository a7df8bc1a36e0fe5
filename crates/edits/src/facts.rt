//! What is known of every document.

ghost use Rattle.picture.specs.CellSet.{IsCellSet};
ghost use Rattle.edits.specs.Design.{design_of, IsDesign};

use picture::Document;

/// Lets proofs know that a document's palette, picture, marks and givens are valid. Nothing else comes of it.
#[tactic(auto, using(crate::proofs::DesignLemmas::marking))]
pub fn know(document: &Document)
    ensures design { IsDesign (design_of document.now) }
    ensures givens { IsCellSet document.now.givens }
{
    let _ = document.palette.len();
    let _ = document.picture.height();
    let _ = document.givens.has(0, 0);
}
