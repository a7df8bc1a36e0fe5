//! Leaving out of a lemma what follows from the rest of it by one reason.

use crate::atom::{has, small};
use crate::marks::{Event, Kept, Reason};
use crate::search::Search;
use std::alloc::AllocError;

// If more premises are kept, lemmas are not shortened up to the next restart.
const MOST_KEPT: usize = 4_000_000;

impl<'a> Search<'a> {
    /// Leaves out what follows from the rest of the lemma by one reason. What a given event excluded stays.
    pub(crate) fn shorten(&mut self, first: u32) -> Result<(), AllocError> {
        self.learning.spare.clear();
        for i in 0..self.learning.touched.len() {
            let Some(at) = self.learning.touched.get(i).copied() else {
                break;
            };
            let Some(event) = self.marks.event(at) else {
                continue;
            };
            if at == first || event.needed == 0 || event.reason == Reason::Decision {
                continue;
            }
            if self.follows(at, event)? {
                self.use_reason(at, event)?;
                self.learning.spare.push(at)?;
            }
        }
        for i in 0..self.learning.spare.len() {
            if let Some(at) = self.learning.spare.get(i).copied() {
                self.marks.set_needed(at, 0);
            }
        }
        Ok(())
    }

    // Whether all premises of what is needed of an event are needed too.
    fn follows(&mut self, at: u32, event: Event) -> Result<bool, AllocError> {
        if event.kept.is_none() && self.learning.kept.len() > MOST_KEPT {
            return Ok(false);
        }
        let kept = self.premises_of(at, event)?;
        for i in kept.start..kept.end {
            let Some(atom) = self.learning.kept.get(i as usize).copied() else {
                return Ok(false);
            };
            let behind = self.marks.event(self.marks.when(atom));
            if !behind.is_some_and(|behind| has(behind.needed, atom.colour)) {
                return Ok(false);
            }
        }
        Ok(true)
    }

    // The premises of what is needed of an event. If all its colours are, the premises are kept for the next lemmas.
    fn premises_of(&mut self, at: u32, event: Event) -> Result<Kept, AllocError> {
        let is_whole = event.needed == event.gone.colours;
        if is_whole && let Some(kept) = event.kept {
            return Ok(kept);
        }
        self.explain(event.reason, Some(event.literal()), event.since)?;
        let start = small(self.learning.kept.len());
        self.learning
            .kept
            .extend_from_slice(&self.learning.premises)?;
        let end = small(self.learning.kept.len());
        let kept = Kept { start, end };
        if is_whole {
            self.marks.set_kept(at, kept);
        }
        Ok(kept)
    }
}
