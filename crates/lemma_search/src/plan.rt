//! Which lemmas a proof needs, how often, and how each is told, that is, written as lines.

use crate::atom::{Literal, small};
use crate::log::{Log, Step};
use crate::marks::Reason;
use crate::store::{Span, Store};
use picture::LineId;
use std::alloc::{AllocError, Global};

/// A line of a proof, in which lemmas have the search's numbers. As hints, `Line` and `Dead` are tried alike, and so are `Use` and
/// `Broken`; the hints after a `Part`, up to the one that ends its branch, refute that the cell has none of the colours.
#[derive(Clone, Copy)]
pub(crate) enum Told {
    Line(LineId),
    Use(u32),
    Dead(LineId),
    Broken(u32),
    Done,
    Part(Literal),
}

/// A step of a proof, with its hints: a lemma, something that is excluded at the root, or the end.
#[derive(Clone, Copy)]
pub(crate) enum Stage {
    Lemma(u32, Span),
    Root(Span),
    End(Span),
    Done,
}

/// How a lemma is told: not at all; once, and kept; or each time inside the branch that uses it.
#[derive(Clone, Copy, Debug, PartialEq, Eq)]
pub(crate) enum Way {
    Left,
    Kept,
    Inside,
}

/// What is known of a lemma: the hints that refute its denial, how often it is used, and how it is told.
#[derive(Clone, Copy)]
pub(crate) struct Known {
    pub hints: Span,
    pub uses: u32,
    pub way: Way,
}

// Nothing is known of a lemma.
const UNKNOWN: Known = Known {
    hints: Span { start: 0, end: 0 },
    uses: 0,
    way: Way::Left,
};

/// What is to be told: the steps and their hints, the search's lemmas, and what is known of each.
#[derive(Drop)]
pub(crate) struct Plan<'a> {
    pub stages: Vec<Stage>,
    pub store: &'a Store,
    pub hints: Vec<Told>,
    pub lemmas: Vec<Known>,
}

// How many times a lemma may be told inside at most.
const FEW: u32 = 8;

// About how many bytes a hint, a literal, and the other lines of a lemma have in the text. A hint counts less than its text, since
// some hints are not needed where a lemma is told inside.
const HINT: usize = 7;

const LITERAL: usize = 11;

const LEMMA: usize = 18;

impl<'a> Plan<'a> {
    /// The plan of what a search found.
    pub(crate) fn new(alloc: Global, log: &Log, store: &'a Store) -> Result<Plan<'a>, AllocError> {
        let mut plan = Plan {
            stages: Vec::new(alloc),
            store,
            hints: Vec::new(alloc),
            lemmas: Vec::new(alloc),
        };
        for step in &log.steps {
            let stage = plan.stage(log, *step)?;
            plan.add(stage)?;
        }
        plan.choose();
        Ok(plan)
    }

    /// The plan for telling a proof once more: its lines are the hints, of which each stage has a span.
    pub(crate) fn again(
        alloc: Global,
        told: &Plan<'a>,
        lines: &[Told],
        spans: &[Span],
    ) -> Result<Plan<'a>, AllocError> {
        let mut plan = Plan {
            stages: Vec::new(alloc),
            store: told.store,
            hints: Vec::from_slice(alloc, lines)?,
            lemmas: Vec::new(alloc),
        };
        for (stage, span) in told.stages.iter().zip(spans) {
            plan.add(stage.with(*span))?;
        }
        plan.choose();
        Ok(plan)
    }

    // A step of the search with its hints, which are added.
    fn stage(&mut self, log: &Log, step: Step) -> Result<Stage, AllocError> {
        let start = self.hints.len();
        match step {
            Step::Lemma(_, hints) => {
                for reason in log.hints.get(hints.start..hints.end).unwrap_or(&[]) {
                    self.add_hint(*reason)?;
                }
            }
            Step::Root(reason) | Step::End(reason) => self.add_hint(reason)?,
            Step::Done => {}
        }
        let end = self.hints.len();
        let span = Span { start, end };
        Ok(match step {
            Step::Lemma(number, _) => Stage::Lemma(number, span),
            Step::Root(_) => Stage::Root(span),
            Step::End(_) => Stage::End(span),
            Step::Done => Stage::Done,
        })
    }

    fn add_hint(&mut self, reason: Reason) -> Result<(), AllocError> {
        match reason {
            Reason::Line(line) => self.hints.push(Told::Line(line))?,
            Reason::Lemma(number) => self.hints.push(Told::Use(number))?,
            Reason::Decision => {}
        }
        Ok(())
    }

    // Adds a step and, if it is a lemma, what is known of it. Lemmas must be added in the order of their numbers, from 0 without
    // gaps, since `lemmas` is indexed by number.
    fn add(&mut self, stage: Stage) -> Result<(), AllocError> {
        self.stages.push(stage)?;
        if let Stage::Lemma(_, hints) = stage {
            self.lemmas.push(Known { hints, ..UNKNOWN })?;
        }
        Ok(())
    }

    /// What is known of a lemma.
    pub(crate) fn lemma(&self, number: u32) -> Known {
        let known = self.lemmas.get(number as usize);
        known.copied().unwrap_or(UNKNOWN)
    }

    pub(crate) fn hint(&self, at: usize) -> Option<Told> {
        self.hints.get(at).copied()
    }

    /// The place after the hint that ends the branch of a part, among the hints after that part.
    pub(crate) fn end_of_part(&self, hints: Span) -> usize {
        let mut open = 1u32;
        for at in hints.start..hints.end {
            match self.hint(at) {
                Some(Told::Part(_)) => open = open.saturating_add(1),
                Some(Told::Dead(_) | Told::Broken(_)) => open = open.saturating_sub(1),
                _ => {}
            }
            if open == 0 {
                return at.saturating_add(1);
            }
        }
        hints.end
    }

    // Counts from the end how often each lemma is used. One that is not used itself uses none.
    fn count_uses(&mut self) {
        for i in (0..self.stages.len()).rev() {
            match self.stages.get(i).copied() {
                Some(Stage::Root(hints) | Stage::End(hints)) => self.count_hints(hints),
                Some(Stage::Lemma(number, hints)) if self.lemma(number).uses > 0 => {
                    self.count_hints(hints);
                }
                _ => {}
            }
        }
    }

    fn count_hints(&mut self, hints: Span) {
        for at in hints.start..hints.end {
            if let Some(Told::Use(number) | Told::Broken(number)) = self.hint(at)
                && let Some(known) = self.lemmas.get_mut(number as usize)
            {
                known.uses = known.uses.saturating_add(1);
            }
        }
    }

    // Chooses how each lemma is told: inside where it is used once, or where that is shorter.
    fn choose(&mut self) {
        self.count_uses();
        for number in 0..small(self.lemmas.len()) {
            let literals = self.store.lemma(number).len();
            if let Some(known) = self.lemmas.get_mut(number as usize) {
                known.way = way_of(*known, literals);
            }
        }
    }
}

impl Stage {
    // The same step with other hints.
    fn with(self, hints: Span) -> Stage {
        match self {
            Stage::Lemma(number, _) => Stage::Lemma(number, hints),
            Stage::Root(_) => Stage::Root(hints),
            Stage::End(_) => Stage::End(hints),
            Stage::Done => Stage::Done,
        }
    }
}

// How a lemma with `literals` literals is told.
fn way_of(known: Known, literals: usize) -> Way {
    if known.uses == 0 {
        return Way::Left;
    }
    let uses = known.uses as usize;
    let hints = known.hints.end.saturating_sub(known.hints.start);
    let inside = hints
        .saturating_mul(HINT)
        .saturating_add(LITERAL)
        .saturating_mul(uses - 1);
    let kept = literals
        .saturating_mul(LITERAL)
        .saturating_add(LEMMA)
        .saturating_add(uses.saturating_mul(HINT));
    if uses == 1 || known.uses <= FEW && inside < kept {
        Way::Inside
    } else {
        Way::Kept
    }
}
