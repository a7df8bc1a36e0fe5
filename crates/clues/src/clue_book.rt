//! The clues of all lines of a picture.

ghost use Rattle.std.specs.Prelude.{◌≡◌, ℕ, ◌↔◌, ◌<◌, ◌≤◌, List, length, IfOk, IsTrue};
ghost use Rattle.picture.specs.declared.line_id.Axis.{Axis};
ghost use Rattle.picture.specs.Rows.{lines_along, HasLine};
ghost use Rattle.clues.specs.Clue.{clue_of};
ghost use Rattle.clues.specs.Change.{CanRefresh, CountsClues, EachAlong, Follows, IsNewClue, IsOldClue, KeepsClues};
ghost use Rattle.clues.specs.ClueBook.{clue_at, clues_along, clues_from, clues_of, HasClue, IsBook};

use crate::counting::clue_of;
use crate::matching::is_clue_of;
use crate::{Change, Clue};
use picture::{Axis, LineId, MAX_SIDE, Picture};
use std::alloc::{AllocError, Global};
use std::marker::Model;

/// The clues of a picture: of each row, from the top, and of each column, from the left. There are 1 to 120 of each.
#[derive(Drop)]
pub struct ClueBook {
    rows: Vec<Clue>,
    columns: Vec<Clue>,
}

impl Model for ClueBook {
    ghost use Rattle.clues.specs.ClueBook.{Clues, IsBook, clues_from};

    ghost Value = { Clues };

    ghost view = { λ b. clues_from b.rows.items b.columns.items };

    ghost invariant = { λ b. IsBook (clues_from b.rows.items b.columns.items) };
}

#[tactic(auto, using(crate::proofs::LineClues::counting, crate::proofs::RefreshedClues::refreshing))]
impl ClueBook {
    /// The clues of a picture's lines.
    pub fn of(alloc: Global, picture: &Picture) -> Result<ClueBook, AllocError>
        ensures { IfOk result (λ book. book ≡ clues_of picture.now) }
    {
        let rows = clues_along(alloc, picture, Axis::Across)?;
        let columns = clues_along(alloc, picture, Axis::Down)?;
        Ok(ClueBook::from_parts(rows, columns))
    }

    /// The clue book with these clues, of the rows from the top and of the columns from the left. Allocates nothing.
    pub fn from_parts(rows: Vec<Clue>, columns: Vec<Clue>) -> ClueBook
        requires { IsBook (clues_from rows.items columns.items) }
        ensures { result ≡ clues_from rows.items columns.items }
    {
        ClueBook { rows, columns }
    }

    /// A copy of the clue book, or an error if out of memory.
    pub fn copy(&self) -> Result<ClueBook, AllocError>
        ensures { IfOk result (λ book. book ≡ self.now) }
    {
        let rows = copies(&self.rows)?;
        let columns = copies(&self.columns)?;
        Ok(ClueBook::from_parts(rows, columns))
    }

    /// Whether these are the clues of a picture, which may have any size. Allocates nothing.
    pub fn has_clues(&self, picture: &Picture) -> bool
        ensures { IsTrue result ↔ (clues_of picture.now ≡ self.now) }
    {
        are_clues(&self.rows, picture, Axis::Across)
            && are_clues(&self.columns, picture, Axis::Down)
    }

    /// The clue book of a picture after a change. Touched lines are counted. Each untouched line gets a copy of the
    /// clue that this book has for the old line that it was, right or wrong: its cells are not counted again. If the
    /// copied clues are right for the picture's lines, the result is the picture's clue book.
    pub fn refresh(&self, picture: &Picture, change: &Change) -> Result<ClueBook, AllocError>
        requires { CanRefresh self.now picture.now change.now }
        ensures sizes { IfOk result (λ book.
            (axis : Axis) → length (clues_along axis book) ≡ lines_along axis picture.now) }
        ensures copied { IfOk result (λ book. KeepsClues change.now self.now book) }
        ensures counted { IfOk result (λ book. CountsClues change.now picture.now book) }
        ensures stands { KeepsClues change.now self.now (clues_of picture.now)
            → IfOk result (λ book. book ≡ clues_of picture.now) }
        ensures value { (old : List (List ℕ)) → self.now ≡ clues_of old
            → Follows change.now old picture.now
            → IfOk result (λ book. book ≡ clues_of picture.now) }
    {
        let rows = self.refreshed(picture, change, Axis::Across)?;
        let columns = self.refreshed(picture, change, Axis::Down)?;
        Ok(ClueBook::from_parts(rows, columns))
    }

    // The clues of all lines of the new picture along an axis.
    fn refreshed(
        &self,
        picture: &Picture,
        change: &Change,
        axis: Axis,
    ) -> Result<Vec<Clue>, AllocError>
        requires { CanRefresh self.now picture.now change.now }
        ensures count { IfOk result (λ clues. length clues.items ≡ lines_along axis picture.now) }
        ensures fits { IfOk result
            (λ clues. (0 < length clues.items) × (length clues.items ≤ MAX_SIDE)) }
        ensures copied { IfOk result
            (λ clues. EachAlong axis clues.items (IsOldClue change.now self.now)) }
        ensures counted { IfOk result
            (λ clues. EachAlong axis clues.items (IsNewClue change.now picture.now)) }
    {
        let count = picture.line_count(axis);
        let mut clues = Vec::with_capacity(*self.rows.allocator(), usize::from(count))?;
        for at in 0..count {
            clues.push(self.refreshed_clue(picture, change, LineId { axis, at })?)?;
        }
        Ok(clues)
    }

    // The clue of a line of the new picture.
    fn refreshed_clue(
        &self,
        picture: &Picture,
        change: &Change,
        line: LineId,
    ) -> Result<Clue, AllocError>
        requires can { CanRefresh self.now picture.now change.now }
        requires line { HasLine picture.now line }
        ensures copied { IfOk result (IsOldClue change.now self.now line) }
        ensures counted { IfOk result (IsNewClue change.now picture.now line) }
    {
        match change.kept_from(line) {
            Some(old) => self.clue(old).copy(),
            None => clue_of(*self.rows.allocator(), picture.line(line)),
        }
    }

    /// How many rows there are, from 1 to 120.
    pub fn height(&self) -> u8
        ensures value { result ≡ length self.now.rows }
        ensures book { IsBook self.now }
    {
        self.rows.len() as u8
    }

    /// How many columns there are, from 1 to 120.
    pub fn width(&self) -> u8
        ensures value { result ≡ length self.now.columns }
        ensures book { IsBook self.now }
    {
        self.columns.len() as u8
    }

    /// How many lines there are along an axis, from 1 to 120.
    pub fn line_count(&self, axis: Axis) -> u8
        ensures value { result ≡ length (clues_along axis self.now) }
        ensures book { IsBook self.now }
    {
        match axis {
            Axis::Across => self.height(),
            Axis::Down => self.width(),
        }
    }

    /// The clue of a line.
    pub fn clue(&self, line: LineId) -> &Clue
        requires { HasClue self.now line }
        ensures value { result.now ≡ clue_at self.now line }
        ensures book { IsBook self.now }
    {
        let at = usize::from(line.at);
        match line.axis {
            Axis::Across => &self.rows[at],
            Axis::Down => &self.columns[at],
        }
    }
}

#[tactic(auto, using(crate::proofs::LineClues::counting))]
// The clues of all lines along an axis.
fn clues_along(alloc: Global, picture: &Picture, axis: Axis) -> Result<Vec<Clue>, AllocError>
    ensures clues { IfOk result
        (λ clues. clues.items ≡ clues_along axis (clues_of picture.now)) }
    ensures fits { IfOk result
        (λ clues. (0 < length clues.items) × (length clues.items ≤ MAX_SIDE)) }
{
    let count = picture.line_count(axis);
    let mut clues = Vec::with_capacity(alloc, usize::from(count))?;
    for at in 0..count {
        clues.push(clue_of(alloc, picture.line(LineId { axis, at }))?)?;
    }
    Ok(clues)
}

// Copies of the clues, in order.
fn copies(clues: &Vec<Clue>) -> Result<Vec<Clue>, AllocError>
    ensures { IfOk result (λ copies. copies.items ≡ clues.now.items) }
{
    let mut copies = Vec::with_capacity(*clues.allocator(), clues.len())?;
    for clue in clues {
        copies.push(clue.copy()?)?;
    }
    Ok(copies)
}

#[tactic(auto, using(crate::proofs::LineClues::counting))]
// Whether these are the clues of all lines along an axis.
fn are_clues(clues: &[Clue], picture: &Picture, axis: Axis) -> bool
    ensures { IsTrue result ↔ (clues_along axis (clues_of picture.now) ≡ clues.now) }
{
    let count = picture.line_count(axis);
    if clues.len() != usize::from(count) {
        return false;
    }
    for at in 0..count {
        if !is_clue_of(&clues[usize::from(at)], picture.line(LineId { axis, at })) {
            return false;
        }
    }
    true
}
