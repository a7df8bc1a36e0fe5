//! A set of names of rows and columns, in a fixed table.

ghost use Rattle.std.specs.Prelude.{◌≡◌, ◌+◌, ◌^◌, ◌<◌, ◌≤◌, ◌↔◌, IsBitSet, IsTrue, MatchOption};
ghost use Rattle.picture.specs.LineSet.{IsClearFrom, IsFirstBit, IsLineSet, HasName, PutsName, PutsNames, TakesOutName, mask_along, name_count, no_names};

use crate::line_id::{Axis, LineId};
use crate::picture::MAX_SIDE;
use std::marker::Model;

/// A set of names of rows and columns, each at a place below `MAX_SIDE`. It allocates nothing.
#[derive(Clone, Copy)]
pub struct LineSet {
    rows: u128,
    columns: u128,
}

impl Model for LineSet {
    ghost use Rattle.picture.specs.LineSet.{Lines, IsLineSet};

    ghost Value = { Lines };

    ghost view = { λ s. record { rows = s.rows; columns = s.columns } };

    ghost invariant = { λ s. IsLineSet (record { rows = s.rows; columns = s.columns }) };

    ghost inverse = { λ lines. record { rows = lines.rows; columns = lines.columns } };
}

impl LineSet {
    /// The empty set.
    pub fn empty() -> LineSet
        ensures value { result ≡ no_names }
        ensures set { IsLineSet result }
        ensures none { (line : LineId) → ¬ HasName result line }
        ensures count { name_count result ≡ 0 }
    {
        LineSet {
            rows: 0,
            columns: 0,
        }
    }

    /// The names along an axis at the places of a mask: bit n of it stands for the line at place n.
    pub fn along(axis: Axis, places: u128) -> LineSet
        requires { places < 2 ^ MAX_SIDE }
        ensures members { (line : LineId)
            → HasName result line ↔ ((line.axis ≡ axis) × IsBitSet places line.at) }
        ensures set { IsLineSet result }
    {
        let (rows, columns) = match axis {
            Axis::Across => (places, 0),
            Axis::Down => (0, places),
        };
        LineSet { rows, columns }
    }

    /// Whether a name is in the set.
    pub fn has(&self, line: LineId) -> bool
        requires { line.at < MAX_SIDE }
        ensures value { IsTrue result ↔ HasName self.now line }
        ensures set { IsLineSet self.now }
    {
        let mask = match line.axis {
            Axis::Across => self.rows,
            Axis::Down => self.columns,
        };
        mask & (1 << line.at) != 0
    }

    /// Puts a name into the set. A set that has it already stays as it is.
    pub fn put(&mut self, line: LineId)
        requires { line.at < MAX_SIDE }
        ensures members { PutsName self.old self.new line }
        ensures set { IsLineSet self.new }
        ensures known { HasName self.old line → self.new ≡ self.old }
        ensures more { ¬ HasName self.old line → name_count self.new ≡ name_count self.old + 1 }
    {
        match line.axis {
            Axis::Across => self.rows |= 1 << line.at,
            Axis::Down => self.columns |= 1 << line.at,
        }
    }

    /// Puts all names of another set into the set.
    pub fn put_all(&mut self, names: &LineSet)
        ensures members { PutsNames self.old self.new names.now }
        ensures set { IsLineSet self.new }
    {
        self.rows |= names.rows;
        self.columns |= names.columns;
    }

    /// Takes a name out of the set. A set that does not have it stays as it is.
    pub fn take_out(&mut self, line: LineId)
        requires { line.at < MAX_SIDE }
        ensures members { TakesOutName self.old self.new line }
        ensures set { IsLineSet self.new }
        ensures absent { ¬ HasName self.old line → self.new ≡ self.old }
        ensures fewer { HasName self.old line → name_count self.new + 1 ≡ name_count self.old }
    {
        match line.axis {
            Axis::Across => self.rows &= !(1 << line.at),
            Axis::Down => self.columns &= !(1 << line.at),
        }
    }

    /// How many names the set has.
    pub fn len(&self) -> usize
        ensures value { result ≡ name_count self.now }
        ensures set { IsLineSet self.now }
    {
        self.rows.count_ones() as usize + self.columns.count_ones() as usize
    }

    /// Whether the set has no name.
    pub fn is_empty(&self) -> bool
        ensures value { IsTrue result ↔ (self.now ≡ no_names) }
        ensures set { IsLineSet self.now }
    {
        self.len() == 0
    }

    /// The first place along an axis, from a given one on, whose name is in the set, if there is one.
    pub fn first_from(&self, axis: Axis, from: u8) -> Option<u8>
        requires { from ≤ MAX_SIDE }
        ensures value { MatchOption
            result
            (IsClearFrom (mask_along axis self.now) from)
            (IsFirstBit (mask_along axis self.now) from) }
        ensures set { IsLineSet self.now }
    {
        match axis {
            Axis::Across => first_bit(self.rows, from),
            Axis::Down => first_bit(self.columns, from),
        }
    }
}

#[tactic(auto, using(crate::proofs::FirstNameLemmas::first))]
// The lowest bit from a place on that is set in a mask, if there is one.
fn first_bit(mask: u128, from: u8) -> Option<u8>
    requires narrow { mask < 2 ^ MAX_SIDE }
    requires within { from ≤ MAX_SIDE }
    ensures { MatchOption result (IsClearFrom mask from) (IsFirstBit mask from) }
{
    let onward = mask >> from;
    if onward == 0 {
        return None;
    }
    Some(from + onward.trailing_zeros() as u8)
}
