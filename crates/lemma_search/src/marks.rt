//! Which colours are excluded, since when and why.

use crate::atom::{Atom, Literal, STRIDE, first_colour, small, spot, without_first};
use picture::{LineId, MAX_COLOURS};
use std::alloc::{AllocError, Global};
use trail::Cell;

/// Why colours are excluded.
#[derive(Clone, Copy, Debug, PartialEq, Eq)]
pub(crate) enum Reason {
    Decision,
    Line(LineId),
    Lemma(u32),
}

/// The exclusion of some colours of a cell: why, how many events there were before the reason applied, at which level, which of the
/// colours an explanation needs, and where the premises are kept, if they are.
#[derive(Clone, Copy)]
pub(crate) struct Event {
    pub gone: Literal,
    pub reason: Reason,
    pub since: u32,
    pub level: u32,
    pub needed: u16,
    pub kept: Option<Kept>,
}

impl Event {
    /// The literal of its cell with the colours that are needed.
    pub(crate) fn literal(self) -> Literal {
        Literal {
            colours: self.needed,
            ..self.gone
        }
    }
}

/// A part of the premises that are kept: its first place, and the one after its last.
#[derive(Clone, Copy, Debug, PartialEq, Eq)]
pub(crate) struct Kept {
    pub start: u32,
    pub end: u32,
}

/// The answer of `when` for a colour that is not excluded.
pub(crate) const NEVER: u32 = u32::MAX;

/// The colours left in each cell, and what excluded the others, in order. A level begins with each decision.
#[derive(Drop)]
pub(crate) struct Marks {
    pub left: Vec<u16>,
    when: Vec<u32>,
    events: Vec<Event>,
    levels: Vec<u32>,
}

impl Marks {
    /// Nothing excluded, in a picture with `height` rows.
    pub(crate) fn new(alloc: Global, height: u8) -> Result<Marks, AllocError> {
        let cells = usize::from(height) * STRIDE;
        Ok(Marks {
            left: vec![in alloc; u16::MAX; cells]?,
            when: vec![in alloc; NEVER; cells * usize::from(MAX_COLOURS)]?,
            events: Vec::new(alloc),
            levels: Vec::new(alloc),
        })
    }

    pub(crate) fn left(&self, cell: Cell) -> u16 {
        self.left.get(spot(cell)).copied().unwrap_or(0)
    }

    /// Sets the colours left in a cell, without an event.
    pub(crate) fn set_left(&mut self, cell: Cell, colours: u16) {
        if let Some(left) = self.left.get_mut(spot(cell)) {
            *left = colours;
        }
    }

    /// The place of the event that excluded a colour, or `NEVER`.
    pub(crate) fn when(&self, atom: Atom) -> u32 {
        self.when.get(atom.place()).copied().unwrap_or(NEVER)
    }

    pub(crate) fn event(&self, at: u32) -> Option<Event> {
        self.events.get(at as usize).copied()
    }

    pub(crate) fn last(&self) -> Option<Event> {
        self.events.last().copied()
    }

    pub(crate) fn count(&self) -> u32 {
        small(self.events.len())
    }

    pub(crate) fn level(&self) -> u32 {
        small(self.levels.len())
    }

    pub(crate) fn is_at_root(&self) -> bool {
        self.levels.is_empty()
    }

    /// How many events are at the root.
    pub(crate) fn root_events(&self) -> u32 {
        self.levels.first().copied().unwrap_or(self.count())
    }

    /// How many events come before the level after a given one, if there is such a level.
    pub(crate) fn before_level(&self, level: u32) -> Option<u32> {
        self.levels.get(level as usize).copied()
    }

    pub(crate) fn begin_level(&mut self) -> Result<(), AllocError> {
        let count = self.count();
        self.levels.push(count)?;
        Ok(())
    }

    /// Forgets the levels above a given one.
    pub(crate) fn end_levels(&mut self, level: u32) {
        self.levels.truncate(level as usize);
    }

    /// Excludes colours of a cell.
    pub(crate) fn exclude(
        &mut self,
        gone: Literal,
        reason: Reason,
        since: u32,
    ) -> Result<(), AllocError> {
        let at = self.count();
        let level = self.level();
        self.events.push(Event {
            gone,
            reason,
            since,
            level,
            needed: 0,
            kept: None,
        })?;
        let left = self.left(gone.cell) & !gone.colours;
        self.set_left(gone.cell, left);
        self.note(gone, at);
        Ok(())
    }

    // Notes when colours were excluded.
    fn note(&mut self, gone: Literal, at: u32) {
        let mut rest = gone.colours;
        for _ in 0..MAX_COLOURS {
            if rest == 0 {
                break;
            }
            let atom = gone.atom(first_colour(rest));
            if let Some(when) = self.when.get_mut(atom.place()) {
                *when = at;
            }
            rest = without_first(rest);
        }
    }

    /// Takes the newest event back, and answers what it excluded.
    pub(crate) fn take_back(&mut self) -> Option<Literal> {
        let gone = self.events.pop()?.gone;
        let left = self.left(gone.cell) | gone.colours;
        self.set_left(gone.cell, left);
        self.note(gone, NEVER);
        Some(gone)
    }

    /// Sets which colours of an event are needed.
    pub(crate) fn set_needed(&mut self, at: u32, needed: u16) {
        if let Some(event) = self.events.get_mut(at as usize) {
            event.needed = needed;
        }
    }

    /// Notes where the premises of an event are kept.
    pub(crate) fn set_kept(&mut self, at: u32, kept: Kept) {
        if let Some(event) = self.events.get_mut(at as usize) {
            event.kept = Some(kept);
        }
    }

    pub(crate) fn is_false(&self, literal: Literal) -> bool {
        self.left(literal.cell) & literal.colours == 0
    }

    pub(crate) fn is_true(&self, literal: Literal) -> bool {
        self.left(literal.cell) & !literal.colours == 0
    }
}
