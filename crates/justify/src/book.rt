//! The book: a list of derivation steps over a base, and the facts that they leave.

ghost use Rattle.std.specs.Prelude.{◌≡◌, ℕ, ◌<◌, [], length, IfOk, OnOk, OnErr};
ghost use Rattle.picture.specs.Rows.{line_of, HasLine};
ghost use Rattle.line_facts.specs.FactSets.{ExcludesAt, row_on, col_on};
ghost use Rattle.justify.specs.Premises.{Mentions};
ghost use Rattle.justify.specs.Book.{account, Adds, CanAdd, GainDrawn, IsAccount};
ghost use Rattle.justify.specs.Reasons.{Finds};

use crate::step::Step;
use line_facts::Facts;
use picture::{Axis, LineId};
use std::alloc::{AllocError, Global};
use std::marker::Model;

/// A list of steps over a base, and all that is excluded after them. Each premise of a step is in the base or drawn by
/// an earlier step, each step draws something, and no exclusion is drawn twice.
#[derive(Drop)]
pub struct Book {
    base: Facts,
    facts: Facts,
    steps: Vec<Step>,
}

impl Model for Book {
    ghost use Rattle.justify.specs.Book.{Account, account, IsAccount};

    ghost Value = { Account };

    ghost view = { λ b. account b.base b.steps.items b.facts };

    ghost invariant = { λ b. IsAccount (account b.base b.steps.items b.facts) };
}

impl Book {
    /// The book without steps over a base: the exclusions that need no reason. Its facts are a copy of the base, so this
    /// can run out of memory.
    pub fn start(alloc: Global, base: Facts) -> Result<Book, AllocError>
        ensures { IfOk result (λ book. book ≡ account base [] base) }
    {
        Book::with_room(alloc, base, 0)
    }

    /// As `start`, with room for `steps` steps before a further one allocates memory.
    pub fn with_room(alloc: Global, base: Facts, steps: usize) -> Result<Book, AllocError>
        ensures { IfOk result (λ book. book ≡ account base [] base) }
    {
        let _ = base.height();
        let facts = base.copy()?;
        let steps = Vec::with_capacity(alloc, steps)?;
        Ok(Book { base, facts, steps })
    }

    /// The base: the exclusions that need no reason.
    pub fn base(&self) -> &Facts
        ensures value { result.now ≡ self.now.base }
        ensures account { IsAccount self.now }
    {
        &self.base
    }

    /// All that is excluded: the base, and what the steps draw.
    pub fn facts(&self) -> &Facts
        ensures value { result.now ≡ self.now.facts }
        ensures account { IsAccount self.now }
    {
        &self.facts
    }

    /// The steps in order.
    pub fn steps(&self) -> &[Step]
        ensures value { result.now ≡ self.now.steps }
        ensures account { IsAccount self.now }
    {
        &self.steps
    }

    // The allocator of the steps.
    pub(crate) fn allocator(&self) -> Global {
        *self.steps.allocator()
    }

    /// A copy of the book, or an error if out of memory.
    pub fn copy(&self) -> Result<Book, AllocError>
        ensures { IfOk result (λ book. book ≡ self.now) }
    {
        let base = self.base.copy()?;
        let facts = self.facts.copy()?;
        let steps = copies(&self.steps)?;
        Ok(Book { base, facts, steps })
    }

    /// Appends a step, and the facts gain what it draws. Its line must be one of the base, each of its premises in the
    /// base or drawn already, and it must draw something, none of which a step has drawn before. If out of memory, the
    /// book is as it was, and the step is dropped.
    pub fn add_step(&mut self, step: Step) -> Result<(), AllocError>
        requires { CanAdd self.old step }
        ensures ok { OnOk result (Adds self.old step self.new) }
        ensures err { OnErr result (self.new ≡ self.old) }
    {
        let last = self.steps.len();
        self.steps.push(step)?;
        gain_drawn(&mut self.facts, &self.steps[last]);
        Ok(())
    }

    /// The place, from 0, of the step that drew that a colour from 0 to 15 is not in a cell. None where no step did: the
    /// colour is left, or only the base excludes it, or there is no such cell.
    pub fn reason(&self, row: u8, col: u8, colour: u8) -> Option<usize>
        requires { colour < 16 }
        ensures { Finds self.now.steps row col colour result }
    {
        self.steps()
            .iter()
            .position(|step| step.draws(row, col, colour))
    }
}

// Copies of the steps, in order.
fn copies(steps: &Vec<Step>) -> Result<Vec<Step>, AllocError>
    ensures { IfOk result (λ copies. copies.items ≡ steps.now.items) }
{
    let mut copies = Vec::with_capacity(*steps.allocator(), steps.len())?;
    for step in steps {
        copies.push(step.copy()?)?;
    }
    Ok(copies)
}

// Excludes what a step draws.
fn gain_drawn(facts: &mut Facts, step: &Step)
    requires line { HasLine facts.old step.now.line }
    requires inside { (i : ℕ) → Mentions step.now.drawn i
        → i < length (line_of facts.old step.now.line) }
    ensures { GainDrawn step.now facts.old facts.new }
{
    let line = step.line;
    for premise in step.drawn.as_slice() {
        exclude_on(facts, line, premise.at, premise.colours);
    }
}

// Excludes colours in the cell at a place of a line.
fn exclude_on(facts: &mut Facts, line: LineId, place: u8, colours: u16)
    requires line { HasLine facts.old line }
    requires place { place < length (line_of facts.old line) }
    ensures { ExcludesAt facts.old facts.new (row_on line.axis line.at place)
        (col_on line.axis line.at place) colours }
{
    let _ = facts.height();
    match line.axis {
        Axis::Across => facts.exclude(line.at, place, colours),
        Axis::Down => facts.exclude(place, line.at, colours),
    }
}
