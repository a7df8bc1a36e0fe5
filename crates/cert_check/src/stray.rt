//! Colours that are left beside the picture's.

ghost use Rattle.std.specs.Prelude.{◌≡◌, ◌<◌, ◌≤◌, length};
ghost use Rattle.picture.specs.Rows.{width_of};
ghost use Rattle.line_facts.specs.FactSets.{SameShape};
ghost use Rattle.cert_check.specs.Strays.{row_strays, stray, strays_of};

use line_facts::Facts;
use picture::{MAX_SIDE, Picture};

// The most cells of a picture.
const MOST_STRAYS: u16 = MAX_SIDE as u16 * MAX_SIDE as u16;

// 1 where a mask has another colour than this one, else 0.
pub(crate) fn stray(mask: u16, colour: u8) -> u16
    requires { colour < 16 }
    ensures value { result ≡ stray mask colour }
    ensures small { result ≤ 1 }
{
    if mask & !(1 << colour) == 0 { 0 } else { 1 }
}

// How many cells of a row have another colour left than the picture's.
fn strays_in(facts: &Facts, picture: &Picture, row: u8) -> u16
    requires same_shape { SameShape picture.now facts.now }
    requires in_rows { row < length picture.now }
    ensures value { result ≡ row_strays picture.now facts.now row (width_of picture.now) }
    ensures small { result ≤ MAX_SIDE }
{
    let mut strays = 0;
    for col in 0..picture.width() {
        strays += stray(facts.left(row, col), picture.cell(row, col));
    }
    strays
}

// How many cells have another colour left than the picture's.
pub(crate) fn count_strays(facts: &Facts, picture: &Picture) -> u16
    requires same_shape { SameShape picture.now facts.now }
    ensures value { result ≡ strays_of picture.now facts.now }
    ensures small { result ≤ MOST_STRAYS }
{
    let mut strays = 0;
    for row in 0..picture.height() {
        strays += strays_in(facts, picture, row);
    }
    strays
}
