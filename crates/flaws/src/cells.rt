//! Which colours the cells of a picture have.

ghost use Rattle.std.specs.Prelude.{◌≡◌, ◌<◌, ◌==◌, length, not};
ghost use Rattle.std.specs.List.{list_any};
ghost use Rattle.picture.specs.Rows.{row_at};
ghost use Rattle.flaws.specs.Cells.{has_colour, is_painted, is_shown};

use picture::Picture;

#[tactic(auto, using(crate::proofs::CellLemmas::cells))]
/// Whether some cell of a picture has a colour. A puzzle is flawed if no cell has the background: then every line is full.
pub fn has_colour(picture: &Picture, colour: u8) -> bool
    ensures { result ≡ has_colour colour picture.now }
{
    for row in 0..picture.height() {
        if row_has(picture, row, colour) {
            return true;
        }
    }
    false
}

#[tactic(auto, using(crate::proofs::CellLemmas::cells))]
// Whether some cell of a row has a colour.
fn row_has(picture: &Picture, row: u8, colour: u8) -> bool
    requires { row < length picture.now }
    ensures { result ≡ list_any (λ cell. cell == colour) (row_at picture.now row) }
{
    for col in 0..picture.width() {
        if picture.cell(row, col) == colour {
            return true;
        }
    }
    false
}

#[tactic(auto, using(crate::proofs::CellLemmas::cells))]
/// Whether some cell of a picture has another colour than the background. A picture that has none is blank.
pub fn is_painted(picture: &Picture) -> bool
    ensures { result ≡ is_painted picture.now }
{
    for row in 0..picture.height() {
        if row_is_painted(picture, row) {
            return true;
        }
    }
    false
}

#[tactic(auto, using(crate::proofs::CellLemmas::cells))]
// Whether some cell of a row has another colour than the background.
fn row_is_painted(picture: &Picture, row: u8) -> bool
    requires { row < length picture.now }
    ensures { result ≡ list_any (λ cell. not (cell == 0)) (row_at picture.now row) }
{
    for col in 0..picture.width() {
        if picture.cell(row, col) != 0 {
            return true;
        }
    }
    false
}

// Whether a puzzle shows a colour: it is the background, or some cell has it.
pub(crate) fn is_shown(picture: &Picture, colour: u8) -> bool
    ensures { result ≡ is_shown colour picture.now }
{
    colour == 0 || has_colour(picture, colour)
}
