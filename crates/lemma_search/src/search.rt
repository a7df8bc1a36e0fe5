//! The state of a search: facts, lemmas, what is due, and what is preferred.

use crate::atom::{Atom, Literal, STRIDE, first_colour, has, is_settled, spot, without_first};
use crate::board::Board;
use crate::log::Log;
use crate::marks::{Marks, NEVER, Reason};
use crate::order::Order;
use crate::store::Store;
use crate::sweeping::Sweep;
use picture::{Axis, LineId, LineSet, MAX_COLOURS, MAX_SIDE};
use std::alloc::{AllocError, Global};
use trail::Cell;

/// The state of a search.
#[derive(Drop)]
pub(crate) struct Search<'a> {
    pub board: &'a Board<'a>,
    pub marks: Marks,
    pub store: Store,
    pub order: Order,
    pub log: Log,
    // The lines that wait to be evaluated.
    pub due: LineSet,
    // The axis whose lines are evaluated first.
    pub axis: Axis,
    // For how many events the lemmas have been looked at.
    pub seen: u32,
    // The colours that were left in each cell before the first decision.
    pub first: Vec<u16>,
    // For each atom whether a decision on it chooses the colour; else it excludes it.
    pub prefers: Vec<bool>,
    // For each cell the colour that decisions aim at, as a mask, or 0: that with which the search came furthest.
    pub aim: Vec<u16>,
    // How many events there were then. While it is `NEVER`, there is no aim.
    pub furthest: u32,
    // How many events exclude the picture's colour.
    pub differing: u32,
    // A line that does not have its clue in the picture shown.
    pub broken: Option<LineId>,
    pub learning: Learning,
}

/// Lists that are used while a conflict is explained.
#[derive(Drop)]
pub(crate) struct Learning {
    pub premises: Vec<Atom>,
    pub touched: Vec<u32>,
    pub used: Vec<(u32, Reason)>,
    pub literals: Vec<Literal>,
    pub spare: Vec<u32>,
    pub levels: Vec<u32>,
    pub sweep: Sweep,
    // Premises that are kept from one lemma to the next, up to a restart.
    pub kept: Vec<Atom>,
}

impl<'a> Search<'a> {
    pub(crate) fn new(alloc: Global, board: &'a Board<'a>) -> Result<Search<'a>, AllocError> {
        let height = board.height();
        let atoms = usize::from(height) * STRIDE * usize::from(MAX_COLOURS);
        Ok(Search {
            board,
            marks: board.marks(alloc)?,
            store: Store::new(alloc, height)?,
            order: Order::new(alloc, height)?,
            log: Log::new(alloc),
            due: LineSet::empty(),
            axis: Axis::Across,
            seen: 0,
            first: Vec::new(alloc),
            prefers: vec![in alloc; false; atoms]?,
            aim: vec![in alloc; 0; usize::from(height) * STRIDE]?,
            furthest: NEVER,
            differing: 0,
            broken: None,
            learning: Learning {
                premises: Vec::new(alloc),
                touched: Vec::new(alloc),
                used: Vec::new(alloc),
                literals: Vec::new(alloc),
                spare: Vec::new(alloc),
                levels: Vec::new(alloc),
                sweep: Sweep::new(alloc),
                kept: Vec::new(alloc),
            },
        })
    }

    // Makes a line of a cell due, unless it is along the axis of the line that changed the cell.
    fn make_due(&mut self, line: LineId, reason: Reason) {
        let along = match reason {
            Reason::Line(by) => by.axis == line.axis,
            _ => false,
        };
        if !along && line.at < MAX_SIDE {
            self.due.put(line);
        }
    }

    /// Excludes colours of a cell.
    pub(crate) fn exclude(
        &mut self,
        gone: Literal,
        reason: Reason,
        since: u32,
    ) -> Result<(), AllocError> {
        self.marks.exclude(gone, reason, since)?;
        let Cell { row, col } = gone.cell;
        if gone.colours & self.board.own(gone.cell) != 0 {
            self.differing = self.differing.saturating_add(1);
        }
        self.make_due(
            LineId {
                axis: Axis::Across,
                at: row,
            },
            reason,
        );
        self.make_due(
            LineId {
                axis: Axis::Down,
                at: col,
            },
            reason,
        );
        Ok(())
    }

    /// The atom that stands for another: where a cell had two colours at first, the higher one stands for both.
    pub(crate) fn standing(&self, atom: Atom) -> Atom {
        let mask = self.first.get(spot(atom.cell)).copied().unwrap_or(0);
        let lowest = first_colour(mask);
        let rest = mask & mask.wrapping_sub(1);
        if is_settled(rest) && has(mask, lowest) {
            Atom {
                colour: first_colour(rest),
                ..atom
            }
        } else {
            atom
        }
    }

    pub(crate) fn prefer(&mut self, atom: Atom, chooses: bool) {
        if let Some(slot) = self.prefers.get_mut(atom.place()) {
            *slot = chooses;
        }
    }

    /// Takes back all events above a level.
    pub(crate) fn back_to(&mut self, level: u32) -> Result<(), AllocError> {
        let Some(count) = self.marks.before_level(level) else {
            return Ok(());
        };
        for _ in count..self.marks.count() {
            self.take_back()?;
        }
        self.marks.end_levels(level);
        self.seen = count;
        self.due = LineSet::empty();
        Ok(())
    }

    // Takes the newest event back, and prefers the colours that were there.
    fn take_back(&mut self) -> Result<(), AllocError> {
        let Some(event) = self.marks.last() else {
            return Ok(());
        };
        let left = self.marks.left(event.gone.cell);
        if is_settled(left) {
            let atom = self.standing(event.gone.atom(first_colour(left)));
            self.prefer(atom, true);
            self.order.put(atom)?;
        }
        let Some(gone) = self.marks.take_back() else {
            return Ok(());
        };
        let mut rest = gone.colours;
        for _ in 0..MAX_COLOURS {
            if rest == 0 {
                break;
            }
            let colour = first_colour(rest);
            rest = without_first(rest);
            let atom = self.standing(gone.atom(colour));
            if atom.colour == colour {
                self.prefer(atom, false);
            }
            self.order.put(atom)?;
        }
        if gone.colours & self.board.own(gone.cell) != 0 {
            self.differing = self.differing.saturating_sub(1);
        }
        Ok(())
    }
}
