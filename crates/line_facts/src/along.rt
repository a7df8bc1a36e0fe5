//! Facts along one line: its length, and the colours left in its cells.

ghost use Rattle.std.specs.Prelude.{◌≡◌, ◌<◌, ◌≤◌, ◌↔◌, IsTrue, length, slice_index};
ghost use Rattle.picture.specs.Rows.{line_of, HasLine};
ghost use Rattle.line_facts.specs.FactSets.{IsFacts};

use crate::facts::Facts;
use picture::{Axis, LineId, MAX_SIDE};

#[tactic(auto, using(crate::proofs::AlongLemmas::places, crate::proofs::AlongLemmas::same_list))]
impl Facts {
    /// How many cells a line has, from 1 to 120.
    pub fn line_len(&self, line: LineId) -> u8
        requires { HasLine self.now line }
        ensures len { result ≡ length (line_of self.now line) }
        ensures some { 0 < result }
        ensures short { result ≤ MAX_SIDE }
        ensures facts { IsFacts self.now }
    {
        match line.axis {
            Axis::Across => self.width(),
            Axis::Down => self.height(),
        }
    }

    /// The colours left in the cell at a place along a line.
    pub fn left_on(&self, line: LineId, place: u8) -> u16
        requires line { HasLine self.now line }
        requires place { place < length (line_of self.now line) }
        ensures value { result ≡ slice_index (line_of self.now line) place }
        ensures facts { IsFacts self.now }
    {
        let _ = self.height();
        match line.axis {
            Axis::Across => self.left(line.at, place),
            Axis::Down => self.left(place, line.at),
        }
    }

    /// Copies the colours left in each cell of a line, from the left or from the top.
    pub fn copy_line(&self, line: LineId, masks: &mut [u16])
        requires line { HasLine self.now line }
        requires whole { length masks.old ≡ length (line_of self.now line) }
        requires short { length masks.old ≤ MAX_SIDE }
        ensures { masks.new ≡ line_of self.now line }
    {
        match line.axis {
            Axis::Across => masks.copy_from_slice(self.row_masks(line.at)),
            Axis::Down => {
                for row in 0..self.height() {
                    masks[usize::from(row)] = self.left(row, line.at);
                }
            }
        }
    }

    /// Whether the same colours are left in the cells of a line as in those of a line of other facts.
    pub fn same_line(&self, line: LineId, other: &Facts, there: LineId) -> bool
        requires here { HasLine self.now line }
        requires there { HasLine other.now there }
        ensures { IsTrue result ↔ (line_of self.now line ≡ line_of other.now there) }
    {
        let count = self.line_len(line);
        if count != other.line_len(there) {
            return false;
        }
        for place in 0..count {
            if self.left_on(line, place) != other.left_on(there, place) {
                return false;
            }
        }
        true
    }
}
