//! The lines of a proof as its text has them: lemmas that are needed, numbered as they begin, and dropped after their
//! last use where there is no room for more.

use crate::atom::{Literal, small};
use crate::plan::{Plan, Stage, Told, Way};
use crate::store::Span;
use crate::telling::Teller;
use cert_text::{CellNumber, CertLine, LineNumber, MAX_LITERALS};
use picture::LineId;
use std::alloc::{AllocError, Global};

// The last use of a lemma that is not used.
const NONE: u32 = u32::MAX;

/// The lines of a proof so far, and for each lemma its number there and the step that uses it last. `spent` are lemmas that are
/// kept, but not used any more.
#[derive(Drop)]
pub(crate) struct Writer<'a> {
    plan: &'a Plan<'a>,
    told: &'a [Told],
    spans: &'a [Span],
    lines: Vec<CertLine>,
    numbers: Vec<u16>,
    last: Vec<u32>,
    begun: u16,
    spent: Vec<u32>,
    // How many literals the lemmas that are kept have together.
    literals: usize,
}

/// Writes what was told.
pub(crate) fn write_lines(alloc: Global, teller: &Teller) -> Result<Vec<CertLine>, AllocError> {
    let lemmas = teller.plan.lemmas.len();
    let mut writer = Writer {
        plan: &teller.plan,
        told: &teller.lines,
        spans: &teller.spans,
        lines: Vec::new(alloc),
        numbers: vec![in alloc; 0; lemmas]?,
        last: vec![in alloc; NONE; lemmas]?,
        begun: 0,
        spent: Vec::new(alloc),
        literals: 0,
    };
    writer.find_last_uses();
    writer.write_steps()?;
    let Writer { lines, .. } = writer;
    Ok(lines)
}

impl<'a> Writer<'a> {
    fn step(&self, at: u32) -> Option<Stage> {
        self.plan.stages.get(at as usize).copied()
    }

    fn steps(&self) -> u32 {
        small(self.plan.stages.len())
    }

    // The lines that tell a step.
    fn told(&self, at: u32) -> &'a [Told] {
        match self.spans.get(at as usize) {
            Some(span) => self.told.get(span.start..span.end).unwrap_or(&[]),
            None => &[],
        }
    }

    fn last_use(&self, number: u32) -> u32 {
        self.last.get(number as usize).copied().unwrap_or(NONE)
    }

    // Whether a step is written: a lemma only where it is kept, and used.
    fn is_written(&self, step: Stage) -> bool {
        match step {
            Stage::Lemma(number, _) => {
                self.plan.lemma(number).way == Way::Kept && self.last_use(number) != NONE
            }
            _ => true,
        }
    }

    // Finds from the end which step uses each lemma last.
    fn find_last_uses(&mut self) {
        for at in (0..self.steps()).rev() {
            let Some(step) = self.step(at) else {
                continue;
            };
            if !self.is_written(step) {
                continue;
            }
            for told in self.told(at) {
                if let Told::Use(number) | Told::Broken(number) = *told {
                    self.note_use(number, at);
                }
            }
        }
    }

    fn note_use(&mut self, number: u32, at: u32) {
        if let Some(last) = self.last.get_mut(number as usize)
            && *last == NONE
        {
            *last = at;
        }
    }

    fn write_steps(&mut self) -> Result<(), AllocError> {
        for at in 0..self.steps() {
            let Some(step) = self.step(at) else {
                break;
            };
            if !self.is_written(step) {
                continue;
            }
            if let Stage::Lemma(number, _) = step {
                self.begin_lemma(number)?;
            }
            for told in self.told(at) {
                let line = self.line_of(*told);
                self.lines.push(line)?;
            }
            self.note_spent(at)?;
        }
        Ok(())
    }

    // Writes a lemma with its literals, which gets the next number.
    fn begin_lemma(&mut self, number: u32) -> Result<(), AllocError> {
        self.make_room(self.plan.store.lemma(number).len())?;
        self.begun = self.begun.saturating_add(1);
        if let Some(slot) = self.numbers.get_mut(number as usize) {
            *slot = self.begun;
        }
        self.lines.push(CertLine::Lemma)?;
        for literal in self.plan.store.lemma(number) {
            self.lines.push(CertLine::Deny(written(*literal)))?;
        }
        Ok(())
    }

    fn number(&self, number: u32) -> u16 {
        self.numbers.get(number as usize).copied().unwrap_or(0)
    }

    fn line_of(&self, told: Told) -> CertLine {
        match told {
            Told::Line(line) => CertLine::Line(line_number(line)),
            Told::Dead(line) => CertLine::Dead(line_number(line)),
            Told::Use(number) => CertLine::Use(self.number(number)),
            Told::Broken(number) => CertLine::Broken(self.number(number)),
            Told::Done => CertLine::Done,
            Told::Part(literal) => CertLine::Part(written(literal)),
        }
    }

    // Makes room for more literals: of the spent lemmas those that were spent last are dropped first.
    fn make_room(&mut self, more: usize) -> Result<(), AllocError> {
        self.literals = self.literals.saturating_add(more);
        for _ in 0..self.spent.len() {
            if self.literals <= MAX_LITERALS {
                break;
            }
            let Some(number) = self.spent.pop() else {
                break;
            };
            let line = CertLine::Forget(self.number(number));
            self.lines.push(line)?;
            let less = self.plan.store.lemma(number).len();
            self.literals = self.literals.saturating_sub(less);
        }
        Ok(())
    }

    // Notes the lemmas whose last use is in a step.
    fn note_spent(&mut self, at: u32) -> Result<(), AllocError> {
        for told in self.told(at) {
            if let Told::Use(number) | Told::Broken(number) = *told
                && self.last_use(number) == at
            {
                self.spent.push(number)?;
                self.forget(number);
            }
        }
        Ok(())
    }

    // Forgets the last use of a lemma, so that it is noted once.
    fn forget(&mut self, number: u32) {
        if let Some(last) = self.last.get_mut(number as usize) {
            *last = NONE;
        }
    }
}

// A line as a proof names it.
fn line_number(line: LineId) -> LineNumber {
    LineNumber {
        axis: line.axis,
        number: u16::from(line.at) + 1,
    }
}

// A literal as a proof writes it.
fn written(literal: Literal) -> cert_text::Literal {
    cert_text::Literal {
        cell: CellNumber {
            row: u16::from(literal.cell.row) + 1,
            col: u16::from(literal.cell.col) + 1,
        },
        colours: literal.colours,
    }
}
