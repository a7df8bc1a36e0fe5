//! The facts as the checker has them at each line of the proof, which line excluded what, and which lines are needed.

ghost use Rattle.std.specs.Prelude.{◌≡◌, ◌≤◌};

use crate::atom::{Atom, Literal, bit, small};
use crate::board::{Board, Masks};
use crate::explaining::{Why, explain};
use crate::marks::{Marks, NEVER, Reason};
use crate::store::{Span, Store};
use crate::sweeping::Sweep;
use line_facts::{LineEngine, Outcome};
use picture::{Axis, LineId};
use std::alloc::{AllocError, Global};
use trail::Cell;

/// The effect of a step: nothing, an exclusion, or a conflict.
#[derive(Clone, Copy, Debug, PartialEq, Eq)]
pub(crate) enum Gained {
    Nothing,
    Something,
    Dead,
}

/// What a lemma says of facts: nothing yet, or that no literal is left, or that a cell is held to the colours of one.
#[derive(Clone, Copy, Debug, PartialEq, Eq)]
pub(crate) enum Said {
    Nothing,
    Broken,
    Holds(Literal),
}

// About an event: the number of the line of the proof that tells it, the first line that uses it, and, of a cell that is held after a
// branch, what the branch uses, and where it ends.
#[derive(Clone, Copy)]
struct Noted {
    told: u32,
    user: u32,
    uses: Span,
    until: u32,
}

/// The facts and what excluded them, and for each line of the proof whether it is needed.
#[derive(Drop)]
pub(crate) struct Trace<'a> {
    board: &'a Board<'a>,
    store: &'a Store,
    marks: Marks,
    noted: Vec<Noted>,
    needed: Vec<bool>,
    // For each line of the picture the next line of the proof that evaluates it.
    next: Vec<u32>,
    premises: Vec<Atom>,
    sweep: Sweep,
    // What branches use.
    used: Vec<Atom>,
    // Where lemmas begin.
    lemmas: Vec<u32>,
    // How many events are at the root.
    root: u32,
}

// How many lines a picture has at most.
const LINES: usize = 256;

// If there are more exclusions at the root, no line there is left out.
const MOST_TRIMMED: u32 = 2500;

fn line_place(line: LineId) -> usize {
    match line.axis {
        Axis::Across => usize::from(line.at),
        Axis::Down => usize::from(line.at) + 128,
    }
}

impl<'a> Trace<'a> {
    /// The facts that a proof begins with.
    pub(crate) fn new(
        alloc: Global,
        board: &'a Board<'a>,
        store: &'a Store,
    ) -> Result<Trace<'a>, AllocError> {
        Ok(Trace {
            board,
            store,
            marks: board.marks(alloc)?,
            noted: Vec::new(alloc),
            needed: Vec::new(alloc),
            next: vec![in alloc; NEVER; LINES]?,
            premises: Vec::new(alloc),
            sweep: Sweep::new(alloc),
            used: Vec::new(alloc),
            lemmas: Vec::new(alloc),
            root: 0,
        })
    }

    pub(crate) fn left(&self, cell: Cell) -> u16 {
        self.marks.left(cell)
    }

    /// How many events there are.
    pub(crate) fn count(&self) -> u32 {
        self.marks.count()
    }

    /// Whether a line of the proof is needed.
    pub(crate) fn is_needed(&self, told: usize) -> bool {
        self.needed.get(told).copied().unwrap_or(false)
    }

    /// Adds a line of the proof. It is needed in any case, or only if something that it excludes is needed.
    pub(crate) fn add(&mut self, is_needed: bool) -> Result<(), AllocError> {
        self.needed.push(is_needed)?;
        Ok(())
    }

    /// How many events are at the root.
    pub(crate) fn root(&self) -> u32 {
        self.root
    }

    fn need(&mut self, told: u32) {
        if let Some(needed) = self.needed.get_mut(told as usize) {
            *needed = true;
        }
    }

    // The number of the next line of the proof.
    fn told(&self) -> u32 {
        small(self.needed.len())
    }

    /// Begins a step at the root.
    pub(crate) fn begin(&mut self) {
        self.root = self.count();
        self.used.clear();
    }

    /// Begins a lemma, which may use all that is excluded at the root.
    pub(crate) fn begin_lemma(&mut self) -> Result<(), AllocError> {
        let told = self.told();
        self.lemmas.push(told)?;
        Ok(())
    }

    /// Takes back what the step at hand excluded.
    pub(crate) fn end_lemma(&mut self) {
        self.take_back(self.root);
    }

    /// Takes all events back but the first `first`.
    pub(crate) fn take_back(&mut self, first: u32) {
        for _ in first..self.count() {
            let _ = self.marks.take_back();
            let _ = self.noted.pop();
        }
    }

    // Excludes colours of a cell, by the next line of the proof.
    fn exclude(&mut self, gone: Literal, reason: Reason, since: u32) -> Result<(), AllocError> {
        let told = self.told();
        self.marks.exclude(gone, reason, since)?;
        self.noted.push(Noted {
            told,
            user: NEVER,
            uses: Span { start: 0, end: 0 },
            until: 0,
        })?;
        Ok(())
    }

    /// Denies a literal. What it excludes needs no line of the proof.
    pub(crate) fn deny(&mut self, literal: Literal) -> Result<(), AllocError> {
        let colours = self.left(literal.cell) & literal.colours;
        let since = self.count();
        self.exclude(Literal { colours, ..literal }, Reason::Decision, since)?;
        if let Some(noted) = self.noted.last_mut() {
            noted.told = NEVER;
        }
        Ok(())
    }

    /// Holds a cell to the colours of a literal of a lemma.
    pub(crate) fn hold(&mut self, literal: Literal, number: u32) -> Result<(), AllocError> {
        let colours = self.left(literal.cell) & !literal.colours;
        let since = self.count();
        let reason = Reason::Lemma(number);
        self.exclude(Literal { colours, ..literal }, reason, since)
    }

    /// What a lemma says of the facts.
    pub(crate) fn say(&self, lemma: &[Literal]) -> Said {
        let mut said = Said::Broken;
        for literal in lemma {
            let left = self.left(literal.cell);
            let held = left & literal.colours;
            if held == 0 {
                continue;
            }
            if said != Said::Broken || held == left {
                return Said::Nothing;
            }
            said = Said::Holds(*literal);
        }
        said
    }

    /// Evaluates a line, and excludes what it forces.
    pub(crate) fn force<E: LineEngine>(
        &mut self,
        engine: &mut E,
        line: LineId,
    ) -> Result<Gained, AllocError>
        ensures calls { E.calls engine.old ≤ E.calls engine.new }
        ensures same_longest { E.longest engine.new ≡ E.longest engine.old }
    {
        let mut masks = [0; 128];
        for place in 0..self.board.cells(line.axis) {
            masks[usize::from(place)] = self.left(Cell::on(line, place));
        }
        match self.board.narrow(engine, line, &mut masks) {
            Outcome::Narrowed => self.take_line(line, &masks),
            Outcome::Dead => Ok(Gained::Dead),
        }
    }

    // Excludes the colours that are not left in the masks of a line.
    fn take_line(&mut self, line: LineId, masks: &Masks) -> Result<Gained, AllocError> {
        let since = self.count();
        for place in 0..self.board.cells(line.axis) {
            let cell = Cell::on(line, place);
            let colours = self.left(cell) & !masks[usize::from(place)];
            if colours != 0 {
                self.exclude(Literal { cell, colours }, Reason::Line(line), since)?;
            }
        }
        Ok(if self.count() == since {
            Gained::Nothing
        } else {
            Gained::Something
        })
    }

    // Collects the premises of the exclusion of some colours, or of a conflict.
    fn explain(
        &mut self,
        reason: Reason,
        of: Option<Literal>,
        before: u32,
        root: u32,
    ) -> Result<(), AllocError> {
        self.premises.clear();
        let why = Why {
            reason,
            of,
            before,
            root,
        };
        let (sweep, premises) = (&mut self.sweep, &mut self.premises);
        explain(self.board, self.store, &self.marks, sweep, why, premises)
    }

    // Forgets where lines of the picture are evaluated later, and what was explained.
    fn begin_trim(&mut self) {
        self.sweep.forget();
        for next in self.next.iter_mut() {
            *next = NEVER;
        }
    }

    fn set_next(&mut self, line: LineId, told: u32) {
        if let Some(next) = self.next.get_mut(line_place(line)) {
            *next = told;
        }
    }

    // Which line of the proof excludes what an event does: a later evaluation of the same line, where that comes in time, else its own.
    fn evaluation(&mut self, line: LineId, told: u32, user: u32) -> u32 {
        match self.next.get(line_place(line)) {
            Some(next) if *next <= user => *next,
            _ => {
                self.need(told);
                self.set_next(line, told);
                told
            }
        }
    }

    /// Ends the branch of the events from `start` on, by a conflict that the newest line of the proof tells. Marks the lines of the
    /// branch that are needed for that, and takes its events back. Answers what the branch uses.
    pub(crate) fn end_branch(&mut self, start: u32, dead: Reason) -> Result<Span, AllocError> {
        let told = self.told().saturating_sub(1);
        let first = self.used.len();
        self.begin_trim();
        if let Reason::Line(line) = dead {
            self.set_next(line, told);
        }
        self.explain(dead, None, self.count(), self.root)?;
        self.use_premises(start, first, told)?;
        for at in (start..self.count()).rev() {
            self.trim_event(start, first, at)?;
        }
        self.take_back(start);
        Ok(Span {
            start: first,
            end: self.used.len(),
        })
    }

    // Marks the line of the proof that tells an event, where that is needed.
    fn trim_event(&mut self, start: u32, first: usize, at: u32) -> Result<(), AllocError> {
        let (Some(event), Some(noted)) = (
            self.marks.event(at),
            self.noted.get(at as usize).copied(),
        ) else {
            return Ok(());
        };
        if event.needed == 0 {
            self.leave_out(noted);
            return Ok(());
        }
        let time = match event.reason {
            Reason::Line(line) => self.evaluation(line, noted.told, noted.user),
            _ => {
                self.need(noted.told);
                noted.told
            }
        };
        self.explain(event.reason, Some(event.literal()), event.since, self.root)?;
        for i in noted.uses.start..noted.uses.end {
            if let Some(atom) = self.used.get(i).copied() {
                self.premises.push(atom)?;
            }
        }
        self.use_premises(start, first, time)
    }

    // Leaves out the lines of a branch, since nothing that it shows is used after it.
    fn leave_out(&mut self, noted: Noted) {
        for told in noted.told..noted.until {
            if let Some(needed) = self.needed.get_mut(told as usize) {
                *needed = false;
            }
        }
    }

    // Marks what a line of the proof uses of the branch, and adds to what the branch uses.
    fn use_premises(&mut self, start: u32, first: usize, told: u32) -> Result<(), AllocError> {
        for i in 0..self.premises.len() {
            let Some(atom) = self.premises.get(i).copied() else {
                break;
            };
            let at = self.marks.when(atom);
            if at < start {
                self.use_outside(atom, at, first)?;
            } else if let Some(event) = self.marks.event(at) {
                self.marks.set_needed(at, event.needed | bit(atom.colour));
                self.use_event(at, told);
            }
        }
        Ok(())
    }

    fn use_outside(&mut self, atom: Atom, at: u32, first: usize) -> Result<(), AllocError> {
        if at < self.root || self.used.iter().skip(first).any(|used| *used == atom) {
            return Ok(());
        }
        self.used.push(atom)?;
        Ok(())
    }

    // Notes a line of the proof that uses an event.
    fn use_event(&mut self, at: u32, told: u32) {
        if let Some(noted) = self.noted.get_mut(at as usize) {
            noted.user = noted.user.min(told);
        }
    }

    /// Holds a cell after a branch that a line of the proof begins.
    pub(crate) fn hold_after(
        &mut self,
        literal: Literal,
        part: u32,
        uses: Span,
    ) -> Result<(), AllocError> {
        let colours = self.left(literal.cell) & !literal.colours;
        let since = self.count();
        self.exclude(Literal { colours, ..literal }, Reason::Decision, since)?;
        let until = self.told();
        if let Some(noted) = self.noted.last_mut() {
            noted.told = part;
            noted.uses = uses;
            noted.until = until;
        }
        Ok(())
    }

    /// Marks which lines at the root are needed for all that is excluded there; all lines, if there are too many exclusions.
    pub(crate) fn end(&mut self) -> Result<(), AllocError> {
        if self.count() > MOST_TRIMMED {
            self.need_root();
            return Ok(());
        }
        self.begin_trim();
        let mut last = self.told();
        for at in (0..self.count()).rev() {
            let (Some(event), Some(noted)) = (
                self.marks.event(at),
                self.noted.get(at as usize).copied(),
            ) else {
                continue;
            };
            last = self.use_by_lemmas(noted.told, last);
            let Reason::Line(line) = event.reason else {
                self.need(noted.told);
                last = last.min(noted.told);
                continue;
            };
            let time = self.evaluation(line, noted.told, noted.user.min(last));
            self.explain(event.reason, Some(event.gone), event.since, 0)?;
            for i in 0..self.premises.len() {
                if let Some(atom) = self.premises.get(i).copied() {
                    let at = self.marks.when(atom);
                    self.use_event(at, time);
                }
            }
        }
        Ok(())
    }

    // Marks all lines at the root as needed.
    fn need_root(&mut self) {
        for at in 0..self.noted.len() {
            if let Some(noted) = self.noted.get(at).copied() {
                self.need(noted.told);
            }
        }
    }

    // Where the first lemma after a line of the proof begins, or `last` if that is earlier.
    fn use_by_lemmas(&mut self, told: u32, last: u32) -> u32 {
        let mut first = last;
        for _ in 0..self.lemmas.len() {
            match self.lemmas.last().copied() {
                Some(lemma) if lemma > told => {
                    first = first.min(lemma);
                    let _ = self.lemmas.pop();
                }
                _ => break,
            }
        }
        first
    }
}
