//! A lemma learnt from a conflict, at its first unique implication point.

use crate::atom::{Atom, Literal, bit, has};
use crate::explaining::{Why, explain};
use crate::marks::{Event, NEVER, Reason};
use crate::search::Search;
use crate::store::Watch;
use picture::MAX_COLOURS;
use std::alloc::AllocError;

impl<'a> Search<'a> {
    /// Learns a lemma from a conflict, goes back to the level at which it holds a cell, and holds that. Answers how deep the lemma
    /// is, or None if no decision led to the conflict, so that there is no level to go back to.
    pub(crate) fn learn(&mut self, conflict: Reason) -> Result<Option<u32>, AllocError> {
        self.note_aim();
        let Some(at) = self.resolve(conflict)? else {
            return Ok(None);
        };
        self.shorten(at)?;
        let level = self.collect(at)?;
        let second = self.learning.literals.get(1).copied();
        let last = second.map(|literal| (literal, self.last_gone(literal)));
        self.back_to(level)?;
        let depth = self.count_levels();
        let number = self.store.add(&self.learning.literals, depth)?;
        self.log.add_lemma(number, &self.learning.used)?;
        let Some(first) = self.learning.literals.first().copied() else {
            return Ok(None);
        };
        if let Some((blocker, atom)) = last {
            let left = self.marks.left(first.cell);
            self.store
                .watch(first.first_in(left), Watch { number, blocker })?;
            let blocker = first;
            self.store.watch(atom, Watch { number, blocker })?;
        }
        self.hold(first, number)?;
        self.order.decay();
        Ok(Some(depth))
    }

    /// Collects the premises of a conflict, or of the exclusion of some colours.
    pub(crate) fn explain(
        &mut self,
        reason: Reason,
        of: Option<Literal>,
        before: u32,
    ) -> Result<(), AllocError> {
        let root = self.marks.root_events();
        let premises = &mut self.learning.premises;
        premises.clear();
        let why = Why {
            reason,
            of,
            before,
            root,
        };
        let sweep = &mut self.learning.sweep;
        explain(self.board, &self.store, &self.marks, sweep, why, premises)
    }

    fn explain_event(&mut self, event: Event) -> Result<(), AllocError> {
        self.explain(event.reason, Some(event.literal()), event.since)
    }

    // Marks the events of the premises as needed, and answers how many of a level were not before.
    fn need_premises(&mut self, level: u32) -> Result<u32, AllocError> {
        let mut more = 0u32;
        for i in 0..self.learning.premises.len() {
            let Some(atom) = self.learning.premises.get(i).copied() else {
                break;
            };
            let at = self.marks.when(atom);
            let standing = self.standing(atom);
            self.order.bump(standing);
            let Some(event) = self.marks.event(at) else {
                continue;
            };
            if event.needed == 0 {
                more = more.saturating_add(u32::from(event.level == level));
                self.learning.touched.push(at)?;
            }
            self.marks.set_needed(at, event.needed | bit(atom.colour));
        }
        Ok(more)
    }

    // The highest level of the premises.
    fn top_level(&self) -> u32 {
        let mut top = 0;
        for atom in &self.learning.premises {
            if let Some(event) = self.marks.event(self.marks.when(*atom)) {
                top = top.max(event.level);
            }
        }
        top
    }

    // Explains a conflict back to the first event of its level that alone leads to it. None where no decision does.
    fn resolve(&mut self, conflict: Reason) -> Result<Option<u32>, AllocError> {
        self.learning.touched.clear();
        self.learning.used.clear();
        self.learning.sweep.forget();
        let count = self.marks.count();
        self.learning.used.push((count, conflict))?;
        self.explain(conflict, None, count)?;
        let level = self.top_level();
        if level == 0 {
            return Ok(None);
        }
        self.back_to(level)?;
        let mut open = self.need_premises(level)?;
        for at in (0..self.marks.count()).rev() {
            let Some(event) = self.marks.event(at) else {
                break;
            };
            if event.needed == 0 {
                continue;
            }
            if open <= 1 {
                return Ok(Some(at));
            }
            self.use_reason(at, event)?;
            self.explain_event(event)?;
            self.marks.set_needed(at, 0);
            open = open
                .saturating_sub(1)
                .saturating_add(self.need_premises(level)?);
        }
        Ok(None)
    }

    /// Notes the reason of an event, with the time at which it is used. The latest come first.
    pub(crate) fn use_reason(&mut self, at: u32, event: Event) -> Result<(), AllocError> {
        let time = match event.reason {
            Reason::Line(_) => event.since,
            _ => at,
        };
        let later = self
            .learning
            .used
            .iter()
            .take_while(|used| used.0 >= time)
            .count();
        let place = later.min(self.learning.used.len());
        if place > 0 && self.learning.used.get(place - 1).copied() == Some((time, event.reason)) {
            return Ok(());
        }
        self.learning.used.insert(place, (time, event.reason))?;
        Ok(())
    }

    // How many levels the literals of the lemma come from.
    fn count_levels(&mut self) -> u32 {
        self.learning.levels.sort_unstable();
        let mut count = 0u32;
        let mut last = None;
        for level in &self.learning.levels {
            if last != Some(*level) {
                count = count.saturating_add(1);
            }
            last = Some(*level);
        }
        count
    }

    // Collects the literals of the lemma: first that of an event, then one of the highest level of the others. Answers that level.
    fn collect(&mut self, first: u32) -> Result<u32, AllocError> {
        self.learning.literals.clear();
        self.learning.levels.clear();
        let Some(event) = self.marks.event(first) else {
            return Ok(0);
        };
        self.learning.literals.push(Literal {
            colours: 0,
            ..event.gone
        })?;
        let mut highest = 0;
        for i in 0..self.learning.touched.len() {
            let Some(at) = self.learning.touched.get(i).copied() else {
                break;
            };
            let Some(event) = self.marks.event(at) else {
                continue;
            };
            self.marks.set_needed(at, 0);
            let literal = event.literal();
            if literal.colours == 0 {
                continue;
            }
            self.learning.levels.push(event.level)?;
            let place = self.add_literal(literal)?;
            if place != 0 && event.level > highest {
                highest = event.level;
                self.put_second(place);
            }
        }
        Ok(highest)
    }

    // Adds a literal, or its colours to the literal of its cell if there is one, and answers the place.
    fn add_literal(&mut self, literal: Literal) -> Result<usize, AllocError> {
        let literals = &mut self.learning.literals;
        for (place, other) in literals.iter_mut().enumerate() {
            if other.cell == literal.cell {
                other.colours |= literal.colours;
                return Ok(place);
            }
        }
        literals.push(literal)?;
        Ok(literals.len() - 1)
    }

    // Exchanges the second literal with another.
    fn put_second(&mut self, place: usize) {
        let literals = &mut self.learning.literals;
        if place < literals.len() && literals.len() > 1 {
            literals.swap(1, place);
        }
    }

    // The colour of a false literal that was excluded last.
    fn last_gone(&self, literal: Literal) -> Atom {
        let mut last = literal.atom(0);
        let mut latest = 0;
        for colour in 0..MAX_COLOURS {
            let atom = literal.atom(colour);
            let when = self.marks.when(atom);
            if has(literal.colours, colour) && when != NEVER && when >= latest {
                latest = when;
                last = atom;
            }
        }
        last
    }
}
