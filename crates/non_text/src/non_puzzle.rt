//! A two-colour puzzle as a .non text gives it: clues, and a goal where there is one.

use clues::ClueBook;
use picture::Picture;

/// A puzzle in two colours, 0 for the background and 1 for the cells that the clues count. Where it is opened as a
/// document, the maxval is 255, the background (255, 255, 255) and colour 1 (0, 0, 0).
#[derive(Drop)]
pub struct NonPuzzle {
    /// The clues of the rows and the columns.
    pub clues: ClueBook,
    /// The picture that the text gives, which has these clues.
    pub goal: Option<Picture>,
}
