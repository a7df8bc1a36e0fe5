//! A row or a column, borrowed from a picture. Nothing is copied.

ghost use Rattle.std.specs.Prelude.{◌≡◌, ℕ, ◌+◌, ◌*◌, ◌-◌, ◌<◌, List, length, slice_index};
ghost use Rattle.std.specs.Iterator.{YieldsFirst, YieldsLast, item_count};
ghost use Rattle.picture.specs.Line.{spaced, IsLine, IsSpaced};

use std::marker::Model;

// The cells at `start`, `start + step` and so on.
#[derive(Clone, Copy)]
struct Spaced<'a> {
    cells: &'a [u8],
    start: usize,
    step: usize,
    count: usize,
}

/// The cells of a row from the left, or of a column from the top.
#[derive(Drop)]
pub struct LineView<'a> {
    line: Spaced<'a>,
}

impl<'a> Model for LineView<'a> {
    ghost Value = { List ℕ };

    ghost view = { λ v. spaced v.line.cells.now v.line.start v.line.step v.line.count };

    ghost invariant = { λ v.
        (0 < v.line.count) × IsSpaced v.line.cells.now v.line.start v.line.step v.line.count };
}

#[tactic(auto, using(crate::proofs::LineLemmas::spacing))]
impl<'a> LineView<'a> {
    // The cells at `start`, `start + step` and so on.
    pub(crate) fn new(cells: &'a [u8], start: usize, step: usize, count: usize) -> LineView<'a>
        requires some { 0 < count }
        requires spaced { IsSpaced cells.now start step count }
        ensures { result ≡ spaced cells.now start step count }
    {
        let line = Spaced {
            cells,
            start,
            step,
            count,
        };
        LineView { line }
    }

    /// How many cells the line has, from 1 to `MAX_SIDE`.
    pub fn len(&self) -> usize
        ensures value { result ≡ length self.now }
        ensures line { IsLine self.now }
    {
        self.line.count
    }

    /// The colour of the cell at a place from 0.
    pub fn get(&self, i: usize) -> u8
        requires { i < length self.now }
        ensures { result ≡ slice_index self.now i }
    {
        self.line.cells[self.line.start + i * self.line.step]
    }

    /// The colours of the cells in order.
    pub fn iter(&self) -> LineIter<'a>
        ensures rest { result ≡ self.now }
        ensures line { IsLine self.now }
    {
        LineIter { line: self.line }
    }
}

/// An iterator over the colours of a line's cells, from either end.
#[derive(Drop)]
pub struct LineIter<'a> {
    line: Spaced<'a>,
}

impl<'a> Model for LineIter<'a> {
    ghost Value = { List ℕ };

    ghost view = { λ v. spaced v.line.cells.now v.line.start v.line.step v.line.count };

    ghost invariant = { λ v. IsSpaced v.line.cells.now v.line.start v.line.step v.line.count };
}

#[tactic(auto, using(crate::proofs::LineLemmas::spacing))]
impl<'a> Iterator for LineIter<'a> {
    type Item = u8;

    ghost next_gives = { YieldsFirst (λ s. s) };

    ghost remaining = { item_count (λ s. s) };

    fn next(&mut self) -> Option<u8> {
        if self.line.count == 0 {
            return None;
        }
        let cell = self.line.cells[self.line.start];
        self.line.count -= 1;
        self.line.start += self.line.step;
        Some(cell)
    }
}

#[tactic(auto, using(crate::proofs::LineLemmas::spacing))]
impl<'a> DoubleEndedIterator for LineIter<'a> {
    ghost next_back_gives = { YieldsLast (λ s. s) };

    fn next_back(&mut self) -> Option<u8> {
        if self.line.count == 0 {
            return None;
        }
        self.line.count -= 1;
        Some(self.line.cells[self.line.start + self.line.count * self.line.step])
    }
}
