//! Propagation: what lines and lemmas exclude, until none excludes more.

ghost use Rattle.std.specs.Prelude.{◌≡◌, ◌≤◌};

use crate::atom::{Atom, Literal, first_colour, without_first};
use crate::board::Masks;
use crate::log::Step;
use crate::marks::Reason;
use crate::search::Search;
use crate::store::Watched;
use line_facts::{LineEngine, Outcome};
use picture::{Axis, LineId, MAX_COLOURS};
use std::alloc::AllocError;
use trail::Cell;

impl<'a> Search<'a> {
    /// Propagates to a fixpoint. Answers the reason of a conflict, if there is one.
    pub(crate) fn propagate<E: LineEngine>(
        &mut self,
        engine: &mut E,
    ) -> Result<Option<Reason>, AllocError>
        ensures calls { E.calls engine.old ≤ E.calls engine.new }
        ensures same_longest { E.longest engine.new ≡ E.longest engine.old }
    {
        for _ in 0..u64::MAX {
            if let Some(number) = self.use_lemmas()? {
                return Ok(Some(Reason::Lemma(number)));
            }
            let Some(line) = self.next_due() else {
                return Ok(None);
            };
            match self.evaluate(engine, line)? {
                Outcome::Narrowed => {}
                Outcome::Dead => return Ok(Some(Reason::Line(line))),
            }
        }
        Ok(None)
    }

    // Takes the first line that is due.
    fn next_due(&mut self) -> Option<LineId> {
        for axis in [self.axis, self.axis.crossing()] {
            if let Some(at) = self.due.first_from(axis, 0) {
                let line = LineId { axis, at };
                self.due.take_out(line);
                self.axis = axis;
                return Some(line);
            }
        }
        None
    }

    // Looks at the lemmas that watch what was excluded. Answers one that is broken.
    fn use_lemmas(&mut self) -> Result<Option<u32>, AllocError> {
        for _ in 0..u32::MAX {
            let Some(event) = self.marks.event(self.seen) else {
                break;
            };
            self.seen = self.seen.saturating_add(1);
            let broken = self.look_behind(event.gone)?;
            if broken.is_some() {
                return Ok(broken);
            }
        }
        Ok(None)
    }

    // Looks at the lemmas that watch the atoms of a literal.
    fn look_behind(&mut self, gone: Literal) -> Result<Option<u32>, AllocError> {
        let mut rest = gone.colours;
        for _ in 0..MAX_COLOURS {
            if rest == 0 {
                break;
            }
            let atom = gone.atom(first_colour(rest));
            rest = without_first(rest);
            if !self.store.is_watched(atom) {
                continue;
            }
            let broken = self.look_at_all(atom)?;
            if broken.is_some() {
                return Ok(broken);
            }
        }
        Ok(None)
    }

    // Looks at the lemmas that watch an atom.
    fn look_at_all(&mut self, atom: Atom) -> Result<Option<u32>, AllocError> {
        let mut list = self.store.take_list(atom);
        let mut kept = 0usize;
        let mut broken = None;
        for i in 0..list.len() {
            let Some(mut watch) = list.get(i).copied() else {
                break;
            };
            if broken.is_none() && !self.marks.is_true(watch.blocker) {
                let number = watch.number;
                match self.store.look(number, atom, &self.marks)? {
                    Watched::Moved => continue,
                    Watched::Silent(literal) => watch.blocker = literal,
                    Watched::Holds(literal) => self.hold(literal, number)?,
                    Watched::Broken => broken = Some(number),
                }
            }
            if let Some(slot) = list.get_mut(kept) {
                *slot = watch;
            }
            kept = kept.saturating_add(1);
        }
        list.truncate(kept);
        self.store.put_list(atom, list);
        Ok(broken)
    }

    // Logs a reason that excludes something, if nothing is decided.
    fn note_root(&mut self, reason: Reason) -> Result<(), AllocError> {
        if self.marks.is_at_root() {
            self.log.add(Step::Root(reason))?;
        }
        Ok(())
    }

    /// Holds a cell to the colours of a literal of a lemma.
    pub(crate) fn hold(&mut self, literal: Literal, number: u32) -> Result<(), AllocError> {
        let reason = Reason::Lemma(number);
        self.note_root(reason)?;
        let colours = self.marks.left(literal.cell) & !literal.colours;
        let since = self.marks.count();
        self.exclude(Literal { colours, ..literal }, reason, since)
    }

    // Evaluates a line, and excludes what it forces.
    fn evaluate<E: LineEngine>(
        &mut self,
        engine: &mut E,
        line: LineId,
    ) -> Result<Outcome, AllocError>
        ensures calls { E.calls engine.old ≤ E.calls engine.new }
        ensures same_longest { E.longest engine.new ≡ E.longest engine.old }
    {
        let mut masks = [0; 128];
        for place in 0..self.board.cells(line.axis) {
            masks[usize::from(place)] = self.marks.left(Cell::on(line, place));
        }
        let outcome = self.board.narrow(engine, line, &mut masks);
        if outcome == Outcome::Narrowed {
            self.take_line(line, &masks)?;
        }
        Ok(outcome)
    }

    // Excludes the colours that are not left in the masks of a line.
    fn take_line(&mut self, line: LineId, masks: &Masks) -> Result<(), AllocError> {
        let reason = Reason::Line(line);
        let since = self.marks.count();
        for place in 0..self.board.cells(line.axis) {
            let cell = Cell::on(line, place);
            let colours = self.marks.left(cell) & !masks[usize::from(place)];
            if colours == 0 {
                continue;
            }
            if self.marks.count() == since {
                self.note_root(reason)?;
            }
            self.exclude(Literal { cell, colours }, reason, since)?;
        }
        Ok(())
    }
}
