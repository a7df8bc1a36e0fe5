//! The goal of a puzzle.

ghost use Rattle.std.specs.Prelude.{◌≡◌, ◌<◌, ◌≤◌, map, IfOk};
ghost use Rattle.std.specs.List.{list_all};
ghost use Rattle.std.specs.Option.{option_copied};
ghost use Rattle.picture.specs.Readers.{Gives};
ghost use Rattle.non_text.specs.Goal.{goal_digits, is_cell_digit, cell_of, goal_in};

use crate::fault::{NonFault, Read};
use crate::lines::is_blank_line;
use picture::{MAX_SIDE, Picture, split_first};
use std::alloc::{AllocError, Global};

#[tactic(auto, using(crate::proofs::GoalLemmas::values, crate::proofs::GoalLemmas::quotes))]
// The digits of a value: those in quotes that only blanks follow, or all of it if no quote begins it.
fn goal_digits(value: &[u8]) -> Option<&[u8]>
    ensures { option_copied result ≡ goal_digits value.now }
{
    let [b'"', rest @ ..] = value else {
        return Some(value);
    };
    let (digits, behind) = split_first(rest, b'"');
    is_blank_line(behind?).then_some(digits)
}

// Whether each digit is 0 or 1.
fn are_cell_digits(digits: &[u8]) -> bool
    ensures { result ≡ list_all is_cell_digit digits.now }
{
    digits.iter().all(|d| *d == b'0' || *d == b'1')
}

// The cells that the digits give.
fn cells_of(alloc: Global, digits: &[u8]) -> Result<Vec<u8>, AllocError>
    ensures { IfOk result (λ cells. cells.items ≡ map cell_of digits.now) }
{
    digits.iter().map(|d| u8::from(*d == b'1')).collect(alloc)
}

#[tactic(auto, using(crate::proofs::GoalLemmas::cells))]
// The picture of a goal line's value.
pub(crate) fn goal_in(alloc: Global, value: &[u8], height: u8, width: u8) -> Read<Picture>
    requires has_row { 0 < height }
    requires rows_fit { height ≤ MAX_SIDE }
    requires has_column { 0 < width }
    requires columns_fit { width ≤ MAX_SIDE }
    ensures { Gives NonFault.Memory (λ picture. picture) result (goal_in height width value.now) }
{
    let digits = goal_digits(value).ok_or(NonFault::BadGoal)?;
    if digits.len() != usize::from(height) * usize::from(width) || !are_cell_digits(digits) {
        return Err(NonFault::BadGoal);
    }
    let cells = cells_of(alloc, digits)?;
    Ok(Picture::from_cells(height, width, cells))
}
