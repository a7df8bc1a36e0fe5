//! What holds of the reader and the writer together.

ghost use Rattle.std.specs.Prelude.{◌≡◌, ℕ, List, true};
ghost use Rattle.picture.specs.Picture.{IsPicture};
ghost use Rattle.non_text.specs.RoundTrip.{IsReadAgain};
ghost use Rattle.non_text.specs.TwoColours.{PuzzlesAreInTwoColours};
ghost use Rattle.non_text.specs.WrittenNon.{is_two_colour};

use picture::Picture;

#[tactic(auto, using(crate::proofs::RoundTrip::again))]
/// The law of the round trip: where no cell of a picture has a colour above 1, the text that `write_non` writes is read
/// by `read_non` as the picture's clues, with the picture as the goal. Nothing is computed.
pub fn round_trip()
    ensures { (rows : List (List ℕ)) → IsPicture rows → is_two_colour rows ≡ true
        → IsReadAgain rows }
{}

/// The law of the round trip for one picture.
pub fn round_trip_of(picture: &Picture)
    ensures { is_two_colour picture.now ≡ true → IsReadAgain picture.now }
{
    round_trip();
    let _ = picture.height();
}

#[tactic(auto, using(crate::proofs::BlackClues::in_two_colours))]
/// A puzzle that `read_non` reads is in two colours: its goal has its clues, and no picture with its clues has a colour
/// above 1.
pub fn puzzles_are_in_two_colours()
    ensures { PuzzlesAreInTwoColours }
{}
