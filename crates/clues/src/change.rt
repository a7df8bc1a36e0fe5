//! What an edit changes: which lines it moves, and the cells of which lines may differ afterwards.

ghost use Rattle.std.specs.Prelude.{◌≡◌, ℕ, ◌<◌, ◌≤◌, ◌⊎◌, ◌↔◌, List, Some, IfNone, IfSome, OnSome, IsTrue};
ghost use Rattle.picture.specs.declared.line_id.LineId.{LineId};
ghost use Rattle.picture.specs.LineSet.{no_names};
ghost use Rattle.picture.specs.Picture.{IsPicture};
ghost use Rattle.picture.specs.Rows.{line_deleted, line_inserted, lines_swapped};
ghost use Rattle.clues.specs.Change.{AgreesOff, AreMoves, Follows, FollowsCells, FollowsSwap, HasSize, HaveSizes};
ghost use Rattle.clues.specs.Change.{IsChangeOf, IsSize, IsTouched, Stays, TouchesChanged};
ghost use Rattle.clues.specs.Change.{image_of, lines_after, lines_before, moved_along, origin_of};
ghost use Rattle.picture.specs.CrossingLines.{crossing};
ghost use Rattle.clues.specs.Change.{places_along, still};

use crate::places::Places;
use picture::{Axis, LineId, LineSet, MAX_SIDE};
use std::marker::Model;

/// Which lines of a picture an edit moves, and which lines of the new picture it touches. A line is touched if it
/// was inserted, or if its cells may differ from those of the old line that it was before the edit.
#[derive(Drop)]
pub struct Change {
    height: u8,
    width: u8,
    rows: Places,
    columns: Places,
    marked: LineSet,
}

impl Model for Change {
    ghost use Rattle.clues.specs.Change.{Changes, AreMoves, moves_from};

    ghost Value = { Changes };

    ghost view = { λ c. record { moves = moves_from c.height c.width c.rows c.columns; marked = c.marked } };

    ghost invariant = { λ c. AreMoves (moves_from c.height c.width c.rows c.columns) };
}

#[tactic(auto, using(crate::proofs::MovedLines::moving, crate::proofs::EditedPictures::following, crate::proofs::ChangedLines::changed, crate::proofs::Insertions::inserting, crate::proofs::TouchedLines::touching))]
impl Change {
    /// The change where no line moves, in a picture of 1 to 120 rows and columns. No line is touched yet.
    pub fn cells(height: u8, width: u8) -> Change
        requires { IsSize height width }
        ensures moves { result.moves ≡ still height width }
        ensures are_moves { AreMoves result.moves }
        ensures untouched { (line : LineId) → IsTouched result line → ⊥ }
        ensures lines { (old new : List (List ℕ)) → HasSize height width old
            → HasSize height width new
            → FollowsCells result.moves old new }
    {
        Change::along(Axis::Across, Places::Kept, height, width)
    }

    /// The change where a background line is inserted in a picture of 1 to 120 rows and columns. It touches the new
    /// line, and all lines that cross it.
    pub fn insert(height: u8, width: u8, line: LineId) -> Change
        requires before { IsSize height width }
        requires place { line.at ≤ lines_before line.axis (still height width) }
        requires room { lines_before line.axis (still height width) < MAX_SIDE }
        ensures moves { result.moves
            ≡ moved_along line.axis (Places.Inserted line.at) height width }
        ensures are_moves { AreMoves result.moves }
        ensures touched { (other : LineId)
            → IsTouched result other ↔ ((other ≡ line) ⊎ (other.axis ≡ crossing line.axis)) }
        ensures lines { (picture : List (List ℕ)) → HasSize height width picture
            → Follows result picture (line_inserted picture line) }
        ensures agreeing { (old new : List (List ℕ)) → HasSize height width old → IsPicture new
            → AgreesOff line old new → IsChangeOf result old new }
        ensures only_changed { (old new : List (List ℕ)) → IsPicture old → IsPicture new
            → HaveSizes result.moves old new → TouchesChanged result old new }
    {
        Change::along(line.axis, Places::Inserted(line.at), height, width)
    }

    /// The change where a line is deleted from a picture of 1 to 120 rows and columns. It touches all lines that
    /// cross it.
    pub fn delete(height: u8, width: u8, line: LineId) -> Change
        requires before { IsSize height width }
        requires place { line.at < lines_before line.axis (still height width) }
        requires more { 1 < lines_before line.axis (still height width) }
        ensures moves { result.moves ≡ moved_along line.axis (Places.Deleted line.at) height width }
        ensures are_moves { AreMoves result.moves }
        ensures touched { (other : LineId)
            → IsTouched result other ↔ (other.axis ≡ crossing line.axis) }
        ensures lines { (picture : List (List ℕ)) → HasSize height width picture
            → Follows result picture (line_deleted picture line) }
        ensures exact { (picture : List (List ℕ)) → HasSize height width picture
            → IsPicture (line_deleted picture line)
            → IsChangeOf result picture (line_deleted picture line) }
        ensures only_changed { (old new : List (List ℕ)) → IsPicture old → IsPicture new
            → HaveSizes result.moves old new → TouchesChanged result old new }
    {
        Change::along(line.axis, Places::Deleted(line.at), height, width)
    }

    /// The change where two lines of an axis are exchanged in a picture of 1 to 120 rows and columns. No line is
    /// touched yet.
    pub fn swap(height: u8, width: u8, axis: Axis, first: u8, second: u8) -> Change
        requires before { IsSize height width }
        requires first_in { first < lines_before axis (still height width) }
        requires second_in { second < lines_before axis (still height width) }
        ensures moves { result.moves ≡ moved_along axis (Places.Swapped first second) height width }
        ensures are_moves { AreMoves result.moves }
        ensures untouched { (line : LineId) → IsTouched result line → ⊥ }
        ensures lines { (picture : List (List ℕ)) → HasSize height width picture
            → FollowsSwap axis first second result.moves picture
            (lines_swapped axis first second picture) }
    {
        Change::along(axis, Places::Swapped(first, second), height, width)
    }

    // The change that moves the lines along one axis as `places` says, with no line marked.
    fn along(axis: Axis, places: Places, height: u8, width: u8) -> Change
        requires { AreMoves (moved_along axis places height width) }
        ensures change { result
            ≡ record { moves = moved_along axis places height width; marked = no_names } }
        ensures moves { AreMoves result.moves }
    {
        let (rows, columns) = match axis {
            Axis::Across => (places, Places::Kept),
            Axis::Down => (Places::Kept, places),
        };
        Change {
            height,
            width,
            rows,
            columns,
            marked: LineSet::empty(),
        }
    }

    /// Marks a line of the new picture as touched.
    pub fn touch(&mut self, line: LineId)
        requires { line.at < lines_after line.axis self.old.moves }
        ensures moves { self.new.moves ≡ self.old.moves }
        ensures touched { (other : LineId)
            → IsTouched self.new other ↔ (IsTouched self.old other ⊎ (other ≡ line)) }
        ensures follows { (old new : List (List ℕ)) → Follows self.old old new
            → Follows self.new old new }
    {
        self.marked.put(line);
    }

    /// The line of the new picture that a line of the old one becomes, or `None` if it is deleted. No two become one.
    pub fn image(&self, line: LineId) -> Option<LineId>
        requires { line.at < lines_before line.axis self.now.moves }
        ensures image { result ≡ image_of self.now.moves line }
        ensures inside { IfSome result (λ to. to.at < lines_after to.axis self.now.moves) }
        ensures one_to_one { IfSome result (λ to. (other : LineId)
            → image_of self.now.moves other ≡ Some to → other ≡ line) }
        ensures moves { AreMoves self.now.moves }
    {
        let at = self.places(line.axis).new_place(line.at)?;
        Some(LineId { at, ..line })
    }

    /// The line of the old picture that a line of the new one was, or `None` if it was inserted.
    pub fn origin(&self, line: LineId) -> Option<LineId>
        requires { line.at < lines_after line.axis self.now.moves }
        ensures origin { result ≡ origin_of self.now.moves line }
        ensures image { IfSome result (λ from. image_of self.now.moves from ≡ Some line) }
        ensures inside { IfSome result (λ from. from.at < lines_before from.axis self.now.moves) }
        ensures none { IfNone result
            ((from : LineId) → image_of self.now.moves from ≡ Some line → ⊥) }
    {
        let at = self.places(line.axis).old_place(line.at)?;
        Some(LineId { at, ..line })
    }

    /// Whether a position on the lines along an axis stays the same: the line that crosses there is its own image.
    pub fn stays(&self, axis: Axis, position: u8) -> bool
        requires { position < lines_before (crossing axis) self.now.moves }
        ensures { IsTrue result ↔ Stays self.now.moves axis position }
    {
        self.places(axis.crossing()).new_place(position) == Some(position)
    }

    /// Whether a line of the new picture is touched.
    pub fn touched(&self, line: LineId) -> bool
        requires { line.at < lines_after line.axis self.now.moves }
        ensures value { IsTrue result ↔ IsTouched self.now line }
        ensures moves { AreMoves self.now.moves }
    {
        self.places(line.axis).is_new(line.at)
            || self.places(line.axis.crossing()).changes_length()
            || self.marked.has(line)
    }

    // The line of the old picture that an untouched line of the new one was, or `None` if the line is touched.
    pub(crate) fn kept_from(&self, line: LineId) -> Option<LineId>
        requires { line.at < lines_after line.axis self.now.moves }
        ensures origin { IfSome result (λ old. origin_of self.now.moves line ≡ Some old) }
        ensures untouched { OnSome result (IsTouched self.now line → ⊥) }
        ensures touched { IfNone result (IsTouched self.now line) }
        ensures moves { AreMoves self.now.moves }
    {
        if self.touched(line) {
            return None;
        }
        self.origin(line)
    }

    // Where the lines along an axis go.
    fn places(&self, axis: Axis) -> Places
        ensures places { result ≡ places_along axis self.now.moves }
        ensures moves { AreMoves self.now.moves }
    {
        match axis {
            Axis::Across => self.rows,
            Axis::Down => self.columns,
        }
    }
}
