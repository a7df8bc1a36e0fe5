//! The search itself: propagate, learn from each conflict, decide.

ghost use Rattle.std.specs.Prelude.{◌≡◌, ◌≤◌};

use crate::log::Step;
use crate::restarts::Restarts;
use crate::search::Search;
use cert_text::MAX_LEMMA_LITERALS;
use line_facts::LineEngine;
use picture::{Axis, LineId, LineSet, MAX_SIDE, Picture};
use std::alloc::{AllocError, Global};

/// The bounds of a search: how many conflicts it learns from, and how many literals its lemmas have in all. If it `aims`, which is for
/// finding a picture, decisions repeat the colours with which it came furthest, and it restarts in two ways in turn.
#[derive(Clone, Copy)]
pub struct Effort {
    pub conflicts: u32,
    pub literals: usize,
    pub aims: bool,
}

/// How a search ended: there is no other picture, or it found this one, or it reached its bounds.
#[derive(Drop)]
pub(crate) enum Ended {
    Unique,
    Other(Picture),
    Undecided,
}

impl<'a> Search<'a> {
    // Makes all lines due.
    fn make_all_due(&mut self) {
        for axis in [Axis::Across, Axis::Down] {
            for at in 0..self.board.picture.line_count(axis) {
                if at < MAX_SIDE {
                    self.due.put(LineId { axis, at });
                }
            }
        }
    }

    fn end(&mut self, step: Step) -> Result<Ended, AllocError> {
        self.log.add(step)?;
        Ok(Ended::Unique)
    }

    /// Searches until there is an answer, or the bounds are reached.
    pub(crate) fn run<E: LineEngine>(
        &mut self,
        alloc: Global,
        engine: &mut E,
        effort: Effort,
    ) -> Result<Ended, AllocError>
        ensures calls { E.calls engine.old ≤ E.calls engine.new }
        ensures same_longest { E.longest engine.new ≡ E.longest engine.old }
    {
        self.make_all_due();
        if let Some(reason) = self.propagate(engine)? {
            return self.end(Step::End(reason));
        }
        self.begin(alloc)?;
        let mut restarts = Restarts::new(effort.aims);
        for _ in 0..u64::MAX {
            if let Some(reason) = self.propagate(engine)? {
                if self.is_over(effort) {
                    return Ok(Ended::Undecided);
                }
                let Some(depth) = self.learn(reason)? else {
                    return self.end(Step::End(reason));
                };
                restarts.count_conflict(depth);
                continue;
            }
            if self.marks.is_at_root() && self.differing == 0 && self.is_settled() {
                return self.end(Step::Done);
            }
            if restarts.is_due() {
                self.back_to(0)?;
                self.learning.kept.clear();
                self.store.forget_some();
                continue;
            }
            if let Some(picture) = self.other(alloc)? {
                return Ok(Ended::Other(picture));
            }
            if !self.decide()? {
                return Ok(Ended::Undecided);
            }
        }
        Ok(Ended::Undecided)
    }

    // Whether a bound is reached. A certificate cannot have a lemma with more than so many literals.
    fn is_over(&self, effort: Effort) -> bool {
        self.store.len() >= effort.conflicts as usize
            || self.store.literals() >= effort.literals
            || self.learning.literals.len() > MAX_LEMMA_LITERALS
    }
}
