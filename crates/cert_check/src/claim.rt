//! What a certificate is checked against.

use clues::ClueBook;
use picture::Picture;

/// What a certificate is checked against: a picture, and its clues.
#[derive(Clone, Copy, Drop)]
pub(crate) struct Claim<'a> {
    pub picture: &'a Picture,
    pub clues: &'a ClueBook,
}
