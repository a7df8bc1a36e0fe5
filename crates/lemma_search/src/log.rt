//! The steps of a search that a proof may need, in order.

use crate::marks::Reason;
use crate::store::Span;
use std::alloc::{AllocError, Global};

/// A step of the search that a proof may need: a lemma, with the hints that refute its denial; a reason that excluded something at
/// the root; or the end, by a conflict or since only the picture's colours are left.
#[derive(Clone, Copy)]
pub(crate) enum Step {
    Lemma(u32, Span),
    Root(Reason),
    End(Reason),
    Done,
}

/// The steps so far, and the hints of all lemmas, where lemmas are kept.
#[derive(Drop)]
pub(crate) struct Log {
    pub keeps: bool,
    pub steps: Vec<Step>,
    pub hints: Vec<Reason>,
}

impl Log {
    /// An empty log.
    pub(crate) fn new(alloc: Global) -> Log {
        Log {
            keeps: true,
            steps: Vec::new(alloc),
            hints: Vec::new(alloc),
        }
    }

    /// Adds a lemma, with the reasons by which its denial is refuted, the latest first.
    pub(crate) fn add_lemma(&mut self, lemma: u32, by: &[(u32, Reason)]) -> Result<(), AllocError> {
        if !self.keeps {
            return Ok(());
        }
        let start = self.hints.len();
        for (_, reason) in by.iter().rev() {
            self.hints.push(*reason)?;
        }
        let end = self.hints.len();
        self.add(Step::Lemma(lemma, Span { start, end }))
    }

    pub(crate) fn add(&mut self, step: Step) -> Result<(), AllocError> {
        self.steps.push(step)?;
        Ok(())
    }
}
