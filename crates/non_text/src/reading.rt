//! The reader of .non texts.

ghost use Rattle.std.specs.Prelude.{◌≡◌, ◌<◌, ◌≤◌};
ghost use Rattle.picture.specs.Readers.{Gives};
ghost use Rattle.non_text.specs.Lines.{lines_of};
ghost use Rattle.non_text.specs.Puzzle.{goal_behind, non_of};

use crate::fault::{NonFault, Read};
use crate::goal::goal_in;
use crate::lines::{find, value};
use crate::non_puzzle::NonPuzzle;
use crate::section::clues_behind;
use crate::seen::{first_fault, size_behind};
use clues::ClueBook;
use picture::{MAX_SIDE, Picture};
use std::alloc::Global;

#[tactic(auto, using(crate::proofs::PuzzleLemmas::parts, crate::proofs::PuzzleLemmas::agreement), unfolding(crate::specs::Puzzle::puzzle_of))]
/// Reads the puzzle of a .non text: the clues, and the goal where it has one.
///
/// Keywords come in any order, lines that begin with `#` and other keywords are skipped, and bytes need not be UTF-8.
/// If the text is not a puzzle, the first error is returned. First come, line by line from the top, a second `width`,
/// `height`, `rows` or `columns` (`Repeated`) and bad sizes; then a missing size, the rows' section, the columns' section
/// and the goal. `Memory` is returned where memory runs out, before any later error.
pub fn read_non(alloc: Global, bytes: &[u8]) -> Result<NonPuzzle, NonFault>
    ensures { Gives NonFault.Memory (λ puzzle. puzzle) result (non_of bytes.now) }
{
    if let Some(fault) = first_fault(bytes) {
        return Err(fault);
    }
    let width = size_behind(bytes, b"width").ok_or(NonFault::MissingSize)?;
    let height = size_behind(bytes, b"height").ok_or(NonFault::MissingSize)?;
    let rows = clues_behind(alloc, bytes, b"rows", height, width)?;
    let columns = clues_behind(alloc, bytes, b"columns", width, height)?;
    let goal = goal_behind(alloc, bytes, height, width)?;
    let clues = ClueBook::from_parts(rows, columns);
    if let Some(picture) = &goal
        && !clues.has_clues(picture)
    {
        return Err(NonFault::GoalDisagrees);
    }
    Ok(NonPuzzle { clues, goal })
}

#[tactic(auto, unfolding(crate::specs::Puzzle::goal_behind))]
// The first goal of a text, where it has one.
fn goal_behind(alloc: Global, text: &[u8], height: u8, width: u8) -> Read<Option<Picture>>
    requires has_row { 0 < height }
    requires rows_fit { height ≤ MAX_SIDE }
    requires has_column { 0 < width }
    requires columns_fit { width ≤ MAX_SIDE }
    ensures { Gives NonFault.Memory (λ goal. goal) result
        (goal_behind height width (lines_of text.now)) }
{
    match find(text, b"goal") {
        None => Ok(None),
        Some((line, _)) => Ok(Some(goal_in(alloc, value(line), height, width)?)),
    }
}
