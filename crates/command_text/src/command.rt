//! What a line of a session asks for.

use edits::Edit;

/// How many splits the search of each part may make in an assessment, where nothing else is said.
pub const ASSESS_SPLITS: u32 = 10_000;

/// One command of a session. Rows, columns and the places of lines count from 0, and colours are 0 to 15.
#[derive(Clone, Copy, Debug, PartialEq, Eq)]
pub enum Command {
    /// Edits the document.
    Edit(Edit),
    /// Takes the last edit back.
    Undo,
    /// Makes the edit again that was taken back last.
    Redo,
    /// Shows the clues.
    Clues,
    /// Shows the map: what lines settle.
    Map,
    /// Asks whether another picture has the same clues and givens.
    Verdict,
    /// Asks why a cell does not have a colour.
    Why { row: u8, col: u8, colour: u8 },
    /// Shows a certificate of the picture.
    Certify,
    /// Shows the picture as a P3 text.
    WritePpm,
    /// Shows the picture as a .non text.
    WriteNon,
    /// Shows a report: the document, its clues, its map, the verdict and the history's lengths.
    Report,
    /// Asks whether the puzzle is fit to be published. `is_off` takes away the bound on splits.
    Assess { is_off: bool },
    /// Shows the path of line logic.
    Path,
    /// Sets how many splits the search of each part may make. None removes that bound.
    Allow(Option<u32>),
}
