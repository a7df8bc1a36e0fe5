//! Telling a proof, that is, making its lines: each step that has an effect, and each lemma, kept or inside a branch.

ghost use Rattle.std.specs.Prelude.{◌≡◌, ◌≤◌};

use crate::atom::{Literal, small};
use crate::marks::Reason;
use crate::plan::{Plan, Stage, Told, Way};
use crate::store::Span;
use crate::trace::{Gained, Said, Trace};
use line_facts::LineEngine;
use picture::{Axis, LineId};
use std::alloc::{AllocError, Global};

// A branch that is told: the hints that are still to come, how many events came before it, and the line of the proof that began it with
// the colours to which a cell is held after it.
#[derive(Clone, Copy)]
struct Branch {
    hints: Span,
    start: u32,
    behind: Option<(u32, Literal)>,
}

/// The proof as far as it is told, and for each step of the search the lines that tell it.
#[derive(Drop)]
pub(crate) struct Teller<'a> {
    alloc: Global,
    pub plan: Plan<'a>,
    facts: Trace<'a>,
    pub lines: Vec<Told>,
    pub spans: Vec<Span>,
}

impl<'a> Teller<'a> {
    /// Nothing told yet, of a plan and the facts that a proof begins with.
    pub(crate) fn new(alloc: Global, plan: Plan<'a>, facts: Trace<'a>) -> Teller<'a> {
        Teller {
            alloc,
            plan,
            facts,
            lines: Vec::new(alloc),
            spans: Vec::new(alloc),
        }
    }

    /// Tells all steps, and leaves out unneeded lines. False if a step is a conflict where it was none in the search, or the reverse.
    pub(crate) fn tell<E: LineEngine>(&mut self, engine: &mut E) -> Result<bool, AllocError>
        ensures calls { E.calls engine.old ≤ E.calls engine.new }
        ensures same_longest { E.longest engine.new ≡ E.longest engine.old }
    {
        for i in 0..self.plan.stages.len() {
            let Some(stage) = self.plan.stages.get(i).copied() else {
                break;
            };
            let start = self.lines.len();
            let is_told = self.tell_stage(engine, stage)?;
            let end = self.lines.len();
            self.spans.push(Span { start, end })?;
            if !is_told {
                return Ok(false);
            }
        }
        self.facts.end()?;
        self.leave_out();
        Ok(true)
    }

    // Leaves out the lines that are not needed.
    fn leave_out(&mut self) {
        let mut end = 0usize;
        for span in self.spans.iter_mut() {
            let start = end;
            for at in span.start..span.end {
                if self.facts.is_needed(at)
                    && let Some(told) = self.lines.get(at).copied()
                    && let Some(slot) = self.lines.get_mut(end)
                {
                    *slot = told;
                    end = end.saturating_add(1);
                }
            }
            *span = Span { start, end };
        }
        self.lines.truncate(end);
    }

    fn tell_stage<E: LineEngine>(
        &mut self,
        engine: &mut E,
        stage: Stage,
    ) -> Result<bool, AllocError>
        ensures calls { E.calls engine.old ≤ E.calls engine.new }
        ensures same_longest { E.longest engine.new ≡ E.longest engine.old }
    {
        self.facts.begin();
        match stage {
            Stage::Root(hints) => Ok(self.tell_hints(engine, hints)? != Gained::Dead),
            Stage::End(hints) => Ok(self.tell_hints(engine, hints)? == Gained::Dead),
            Stage::Done => {
                self.add(Told::Done, true)?;
                Ok(true)
            }
            Stage::Lemma(number, _) => self.tell_lemma(engine, number),
        }
    }

    // Adds a line. It is needed in any case, or only if something that it excludes is needed.
    fn add(&mut self, told: Told, is_needed: bool) -> Result<(), AllocError> {
        self.lines.push(told)?;
        self.facts.add(is_needed)
    }

    // Tells a lemma that is kept.
    fn tell_lemma<E: LineEngine>(&mut self, engine: &mut E, number: u32) -> Result<bool, AllocError>
        ensures calls { E.calls engine.old ≤ E.calls engine.new }
        ensures same_longest { E.longest engine.new ≡ E.longest engine.old }
    {
        let known = self.plan.lemma(number);
        if known.way != Way::Kept {
            return Ok(true);
        }
        self.facts.begin_lemma()?;
        for literal in self.plan.store.lemma(number) {
            self.facts.deny(*literal)?;
        }
        let is_told = self.tell_empty(number)?
            || self.tell_hints(engine, known.hints)? == Gained::Dead;
        self.facts.end_lemma();
        Ok(is_told)
    }

    // Tells that the row of a cell of a lemma is dead, where no colour is left in the cell.
    fn tell_empty(&mut self, number: u32) -> Result<bool, AllocError> {
        for literal in self.plan.store.lemma(number) {
            if self.facts.left(literal.cell) == 0 {
                let at = literal.cell.row;
                let axis = Axis::Across;
                self.add(Told::Dead(LineId { axis, at }), true)?;
                return Ok(true);
            }
        }
        Ok(false)
    }

    // Tells hints up to the end of the branch, or of the hints.
    fn tell_hints<E: LineEngine>(
        &mut self,
        engine: &mut E,
        hints: Span,
    ) -> Result<Gained, AllocError>
        ensures calls { E.calls engine.old ≤ E.calls engine.new }
        ensures same_longest { E.longest engine.new ≡ E.longest engine.old }
    {
        let start = self.facts.root();
        let mut branches = vec![in self.alloc;
            Branch {
                hints,
                start,
                behind: None
            },
        ]?;
        for _ in 0..u64::MAX {
            let Some(branch) = branches.last_mut() else {
                return Ok(Gained::Dead);
            };
            let at = branch.hints.start;
            if at >= branch.hints.end {
                break;
            }
            branch.hints.start = at.saturating_add(1);
            if let Some(dead) = self.tell_hint(engine, &mut branches, at)? {
                self.end_branch(&mut branches, dead)?;
            }
        }
        Ok(Gained::Something)
    }

    // Ends the branch at hand by a conflict, and holds the cell of the part that began it, if one did.
    fn end_branch(&mut self, branches: &mut Vec<Branch>, dead: Reason) -> Result<(), AllocError> {
        let Some(branch) = branches.pop() else {
            return Ok(());
        };
        let uses = self.facts.end_branch(branch.start, dead)?;
        match branch.behind {
            Some((part, literal)) => self.facts.hold_after(literal, part, uses),
            None => Ok(()),
        }
    }

    // Tells a hint of the branch at hand. Answers the reason of a conflict, if there is one.
    fn tell_hint<E: LineEngine>(
        &mut self,
        engine: &mut E,
        branches: &mut Vec<Branch>,
        at: usize,
    ) -> Result<Option<Reason>, AllocError>
        ensures calls { E.calls engine.old ≤ E.calls engine.new }
        ensures same_longest { E.longest engine.new ≡ E.longest engine.old }
    {
        match self.plan.hint(at) {
            Some(Told::Line(line) | Told::Dead(line)) => self.tell_line(engine, line),
            Some(Told::Use(number) | Told::Broken(number)) => self.tell_use(branches, number),
            Some(Told::Part(literal)) => self.tell_part(branches, literal, at),
            _ => Ok(None),
        }
    }

    fn tell_line<E: LineEngine>(
        &mut self,
        engine: &mut E,
        line: LineId,
    ) -> Result<Option<Reason>, AllocError>
        ensures calls { E.calls engine.old ≤ E.calls engine.new }
        ensures same_longest { E.longest engine.new ≡ E.longest engine.old }
    {
        match self.facts.force(engine, line)? {
            Gained::Nothing => {}
            Gained::Something => self.add(Told::Line(line), false)?,
            Gained::Dead => {
                self.add(Told::Dead(line), true)?;
                return Ok(Some(Reason::Line(line)));
            }
        }
        Ok(None)
    }

    // Tells the use of a lemma: what the kept lemma says, or the lemma itself inside the branch.
    fn tell_use(
        &mut self,
        branches: &mut Vec<Branch>,
        number: u32,
    ) -> Result<Option<Reason>, AllocError> {
        let known = self.plan.lemma(number);
        let said = self.facts.say(self.plan.store.lemma(number));
        if known.way == Way::Inside {
            self.tell_inside(branches, said, known.hints)?;
            return Ok(None);
        }
        match said {
            Said::Nothing => Ok(None),
            Said::Broken => {
                self.add(Told::Broken(number), true)?;
                Ok(Some(Reason::Lemma(number)))
            }
            Said::Holds(literal) => {
                self.facts.hold(literal, number)?;
                self.add(Told::Use(number), false)?;
                Ok(None)
            }
        }
    }

    // Tells a part by its hints, which end before the rest of the branch at hand.
    fn tell_part(
        &mut self,
        branches: &mut Vec<Branch>,
        literal: Literal,
        at: usize,
    ) -> Result<Option<Reason>, AllocError> {
        let Some(branch) = branches.last_mut() else {
            return Ok(None);
        };
        let start = at.saturating_add(1);
        let end = self.plan.end_of_part(Span {
            start,
            end: branch.hints.end,
        });
        // A single hint holds the cell without a part.
        if end.saturating_sub(start) > 1 {
            branch.hints.start = end;
            let said = self.facts.say(&[literal]);
            self.tell_inside(branches, said, Span { start, end })?;
        }
        Ok(None)
    }

    // Tells what a lemma or a part says by hints that refute its denial: a branch in which the cell that is held has none of the
    // colours, by the hints, and then one in which it has these alone. Where no colour is left, the hints end the branch at hand.
    fn tell_inside(
        &mut self,
        branches: &mut Vec<Branch>,
        said: Said,
        hints: Span,
    ) -> Result<(), AllocError> {
        match said {
            Said::Nothing => {}
            Said::Broken => {
                if let Some(branch) = branches.last_mut() {
                    branch.hints = hints;
                }
            }
            Said::Holds(literal) => {
                let part = small(self.lines.len());
                self.add(Told::Part(literal), true)?;
                let start = self.facts.count();
                self.facts.deny(literal)?;
                branches.push(Branch {
                    hints,
                    start,
                    behind: Some((part, literal)),
                })?;
            }
        }
        Ok(())
    }
}
