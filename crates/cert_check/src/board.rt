//! The facts at hand and those that wait, and for each how many cells have another colour left than the picture's.

ghost use Rattle.std.specs.Prelude.{◌≡◌, ◌≤◌, ◌<◌, ◌+◌, ◌∷◌, ◌++◌, ◌⊎◌, ◌↔◌, [], true, ℕ, bit_and, length, vec_capacity, IsBitSet, IsTrue};
ghost use Rattle.std.specs.Int.{bit_not, w16};
ghost use Rattle.picture.specs.LineSet.{HasName};
ghost use Rattle.picture.specs.Rows.{width_of, with_cell, cell_at, line_of};
ghost use Rattle.clues.specs.ClueBook.{clue_at, clues_of};
ghost use Rattle.line_facts.specs.Branches.{branches};
ghost use Rattle.line_facts.specs.FactSets.{IsClosedLine, IsFacts, SameShape, col_on, row_on};
ghost use Rattle.cert_check.specs.Boards.{IsTallied, KeepsOthers, UnsettlesCell, waiting};
ghost use Rattle.cert_check.specs.Notes.{most_notes};
ghost use Rattle.cert_check.specs.Puzzle.{ShowsOnly};
ghost use Rattle.cert_check.specs.Strays.{strays_of};

use crate::bounded_trail::BoundedTrail;
use crate::note::Note;
use crate::stray::{count_strays, stray};
use line_facts::Facts;
use picture::{Axis, LineId, LineSet, MAX_SIDE, Picture};
use std::marker::Model;
use trail::Cell;

// The highest colour.
const HIGHEST: u32 = 15;

// A trail whose cells are compared with a picture, always the same.
#[derive(Drop)]
pub(crate) struct Board {
    trail: BoundedTrail,
    strays: u16,
    // Lines whose cells have not changed since they were evaluated.
    settled: LineSet,
}

impl Model for Board {
    ghost use Rattle.cert_check.specs.Boards.{Boarded, boarded};

    ghost Value = { Boarded };

    ghost view = { λ b. boarded b.trail.at_hand b.trail.behind b.strays b.trail.waits b.settled
        b.trail.parts };
}

impl Board {
    // A board with these facts at hand, where nothing waits.
    pub(crate) fn start(picture: &Picture, facts: Facts, notes: Vec<Note>, parts: usize) -> Board
        requires same_shape { SameShape picture.now facts }
        requires empty { notes.items ≡ [] }
        requires enough { most_notes (length facts) (width_of facts) parts ≤ vec_capacity notes }
        ensures at_hand { result.at_hand ≡ facts }
        ensures behind { result.behind ≡ [] }
        ensures parts { result.parts ≡ parts }
        ensures tallied { IsTallied picture.now result }
    {
        let strays = count_strays(&facts, picture);
        Board {
            trail: BoundedTrail::start(facts, notes, parts),
            strays,
            settled: LineSet::empty(),
        }
    }

    // The facts at hand.
    pub(crate) fn at_hand(&self) -> &Facts
        ensures { result.now ≡ self.now.at_hand }
    {
        self.trail.at_hand()
    }

    // Whether no branch waits.
    pub(crate) fn is_last(&self) -> bool
        ensures { IsTrue result ↔ (self.now.behind ≡ []) }
    {
        self.trail.is_last()
    }

    // Whether no cell of the facts at hand has a colour left other than the picture's.
    pub(crate) fn shows_only(&self, picture: &Picture) -> bool
        requires { IsTallied picture.now self.now }
        ensures { IsTrue result ↔ ShowsOnly picture.now self.now.at_hand }
    {
        let _ = picture.height();
        let _ = self.trail.at_hand().height();
        self.strays == 0
    }

    // Whether a line is known to be settled: it forces nothing more.
    pub(crate) fn is_settled(&self, line: LineId) -> bool
        requires { line.at < MAX_SIDE }
        ensures { IsTrue result ↔ HasName self.now.settled line }
    {
        self.settled.has(line)
    }

    // Notes that a line is settled.
    pub(crate) fn settle(&mut self, picture: &Picture, line: LineId)
        requires place { line.at < MAX_SIDE }
        requires tallied { IsTallied picture.now self.old }
        requires closed { IsClosedLine (clue_at (clues_of picture.now) line)
            (line_of self.old.at_hand line) }
        ensures at_hand { self.new.at_hand ≡ self.old.at_hand }
        ensures behind { self.new.behind ≡ self.old.behind }
        ensures tallied { IsTallied picture.now self.new }
        ensures noted { HasName self.new.settled line }
        ensures parts { self.new.parts ≡ self.old.parts }
    {
        self.settled.put(line);
    }

    // How many cells would have another colour if a cell had this mask.
    fn strays_with(&self, picture: &Picture, cell: Cell, held: u16) -> u16
        requires in_rows { cell.row < length self.now.at_hand }
        requires in_columns { cell.col < width_of self.now.at_hand }
        requires same_shape { SameShape picture.now self.now.at_hand }
        requires strays { self.now.strays ≡ strays_of picture.now self.now.at_hand }
        ensures value { result
            ≡ strays_of picture.now (with_cell self.now.at_hand cell.row cell.col held) }
        ensures facts { IsFacts self.now.at_hand }
    {
        let colour = picture.cell(cell.row, cell.col);
        let left = self.trail.at_hand().left(cell.row, cell.col);
        let (less, more) = (stray(left, colour), stray(held, colour));
        self.strays - less + more
    }

    // Takes the lines through a cell from those that are settled.
    fn unsettle(&mut self, cell: Cell)
        requires row { cell.row < MAX_SIDE }
        requires col { cell.col < MAX_SIDE }
        ensures at_hand { self.new.at_hand ≡ self.old.at_hand }
        ensures behind { self.new.behind ≡ self.old.behind }
        ensures strays { self.new.strays ≡ self.old.strays }
        ensures waits { self.new.waits ≡ self.old.waits }
        ensures parts { self.new.parts ≡ self.old.parts }
        ensures settled { UnsettlesCell self.old.settled self.new.settled cell.row cell.col }
    {
        self.settled.take_out(LineId {
            axis: Axis::Across,
            at: cell.row,
        });
        self.settled.take_out(LineId {
            axis: Axis::Down,
            at: cell.col,
        });
    }

    // Sets the mask of a cell of the facts at hand to some of the colours that are left there.
    #[inline]
    pub(crate) fn hold(&mut self, picture: &Picture, cell: Cell, held: u16)
        requires in_rows { cell.row < length self.old.at_hand }
        requires in_columns { cell.col < width_of self.old.at_hand }
        requires left { (k : ℕ) → IsBitSet held k
            → IsBitSet (cell_at self.old.at_hand cell.row cell.col) k }
        requires tallied { IsTallied picture.now self.old }
        ensures at_hand { self.new.at_hand
            ≡ with_cell self.old.at_hand cell.row cell.col held }
        ensures behind { self.new.behind ≡ self.old.behind }
        ensures tallied { IsTallied picture.now self.new }
        ensures others { KeepsOthers self.old.settled self.new.settled cell.row cell.col }
        ensures facts { IsFacts self.old.at_hand }
        ensures parts { self.new.parts ≡ self.old.parts }
    {
        if self.trail.at_hand().left(cell.row, cell.col) != held {
            let strays = self.strays_with(picture, cell, held);
            self.trail.hold(cell, held);
            self.strays = strays;
            self.unsettle(cell);
        }
    }

    // The same for a cell of a line that is not settled.
    #[inline]
    pub(crate) fn hold_on(&mut self, picture: &Picture, line: LineId, place: u8, held: u16)
        requires in_rows { row_on line.axis line.at place < length self.old.at_hand }
        requires in_columns { col_on line.axis line.at place < width_of self.old.at_hand }
        requires left { (k : ℕ) → IsBitSet held k → IsBitSet (cell_at
            self.old.at_hand (row_on line.axis line.at place) (col_on line.axis line.at place)) k }
        requires tallied { IsTallied picture.now self.old }
        requires unsettled { ¬ HasName self.old.settled line }
        ensures at_hand { self.new.at_hand ≡ with_cell self.old.at_hand
            (row_on line.axis line.at place) (col_on line.axis line.at place) held }
        ensures behind { self.new.behind ≡ self.old.behind }
        ensures tallied { IsTallied picture.now self.new }
        ensures unsettled { ¬ HasName self.new.settled line }
        ensures facts { IsFacts self.old.at_hand }
        ensures parts { self.new.parts ≡ self.old.parts }
    {
        let cell = Cell::on(line, place);
        let strays = self.strays_with(picture, cell, held);
        self.trail.hold(cell, held);
        self.strays = strays;
        self.settled.take_out(line.crossing(place));
    }

    // Takes some colours from a cell of the facts at hand. The branch with these alone waits before all others.
    pub(crate) fn part(&mut self, picture: &Picture, cell: Cell, colours: u16)
        requires in_rows { cell.row < length self.old.at_hand }
        requires in_columns { cell.col < width_of self.old.at_hand }
        requires parts { (0 < self.old.parts)
            ⊎ ((0 < bit_and (cell_at self.old.at_hand cell.row cell.col) colours)
            × (0 < bit_and (cell_at self.old.at_hand cell.row cell.col) (bit_not w16 colours))) }
        requires tallied { IsTallied picture.now self.old }
        ensures at_hand { self.new.at_hand ≡ with_cell self.old.at_hand cell.row cell.col
            (bit_and (cell_at self.old.at_hand cell.row cell.col) (bit_not w16 colours)) }
        ensures behind { self.new.behind ≡ with_cell self.old.at_hand cell.row cell.col
            (bit_and (cell_at self.old.at_hand cell.row cell.col) colours) ∷ self.old.behind }
        ensures tallied { IsTallied picture.now self.new }
        ensures parts { self.old.parts ≤ self.new.parts + 1 }
        ensures kept { 0 < bit_and (cell_at self.old.at_hand cell.row cell.col) colours
            → 0 < bit_and (cell_at self.old.at_hand cell.row cell.col) (bit_not w16 colours)
            → self.new.parts ≡ self.old.parts }
        ensures facts { IsFacts self.old.at_hand }
    {
        let left = self.trail.at_hand().left(cell.row, cell.col);
        let waiting = self.strays_with(picture, cell, left & colours);
        let strays = self.strays_with(picture, cell, left & !colours);
        self.trail.part(cell, colours, waiting);
        self.strays = strays;
        self.unsettle(cell);
    }

    // The facts at hand wait as they are, where none do.
    pub(crate) fn keep_waiting(&mut self, picture: &Picture)
        requires tallied { IsTallied picture.now self.old }
        requires last { self.old.behind ≡ [] }
        ensures at_hand { self.new.at_hand ≡ self.old.at_hand }
        ensures behind { self.new.behind ≡ self.old.at_hand ∷ [] }
        ensures tallied { IsTallied picture.now self.new }
        ensures parts { self.new.parts ≡ self.old.parts }
    {
        self.trail.keep_waiting(self.strays);
    }

    // Splits a cell in which a colour is left: the branch with the lowest one is at hand, and one for each other waits before
    // those that wait.
    pub(crate) fn split(&mut self, picture: &Picture, cell: Cell)
        requires in_rows { cell.row < length self.old.at_hand }
        requires in_columns { cell.col < width_of self.old.at_hand }
        requires some { 0 < cell_at self.old.at_hand cell.row cell.col }
        requires tallied { IsTallied picture.now self.old }
        ensures branches { branches self.old.at_hand cell.row cell.col
            (cell_at self.old.at_hand cell.row cell.col) ++ self.old.behind
            ≡ self.new.at_hand ∷ self.new.behind }
        ensures last { self.new.behind ≡ [] → self.old.behind ≡ [] }
        ensures tallied { IsTallied picture.now self.new }
        ensures parts { self.new.parts ≡ self.old.parts }
    {
        let left = self.trail.at_hand().left(cell.row, cell.col);
        for n in 0..HIGHEST - left.trailing_zeros() {
            let colour = 1 << (HIGHEST - n);
            if left & colour != 0 {
                self.part(picture, cell, colour);
            }
        }
    }

    // Ends the branch at hand and begins the next that waits. False where none does.
    pub(crate) fn advance(&mut self, picture: &Picture) -> bool
        requires { IsTallied picture.now self.old }
        ensures waits { waiting result self.new ≡ self.old.behind }
        ensures tallied { result ≡ true → IsTallied picture.now self.new }
        ensures parts { self.new.parts ≡ self.old.parts }
    {
        let Some(strays) = self.trail.advance() else {
            return false;
        };
        self.strays = strays;
        self.settled = LineSet::empty();
        true
    }
}
