//! The law of the round trip: a written picture is read back in ordered form.

ghost use Rattle.std.specs.Prelude.{◌≡◌};
ghost use Rattle.picture.specs.CellSet.{no_cells};
ghost use Rattle.picture.specs.Content.{content_of};
ghost use Rattle.picture.specs.Document.{Content};
ghost use Rattle.ppm_text.specs.RoundTrip.{IsUngiven, IsReadAgain};

use picture::Document;

#[tactic(auto, using(crate::proofs::Again::is_read_again))]
/// The law of the round trip: the text that is written for a document without givens, read with the document's
/// background passed, gives the document's ordered form.
pub fn round_trip()
    ensures { (d : Content) → IsUngiven d → IsReadAgain d }
{}

/// The law of the round trip for one document: its only premise is that there are no givens.
pub fn round_trip_of(document: &Document)
    ensures { document.now.givens ≡ no_cells → IsReadAgain (content_of document.now) }
{
    let _ = document.palette.len();
    let _ = document.picture.height();
}
