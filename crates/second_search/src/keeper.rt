//! What is known of each part, kept from one judgement to the next, and a picture judged by it.

ghost use Rattle.std.specs.Prelude.{◌≡◌, ◌-◌, ◌<◌, ◌≤◌, ◌↔◌, ℕ, length, IfOk, IsTrue, OnErr, MatchOption};
ghost use Rattle.picture.specs.CellSet.{HasCell};
ghost use Rattle.line_facts.specs.Counts.{Counts};
ghost use Rattle.second_search.specs.Parts.{AreParts, IsPart, IsScene};
ghost use Rattle.second_search.specs.Answer.{IsAnswer};
ghost use Rattle.second_search.specs.CarriedParts.{AreSameLines, Carries, IsCarried, KnowsNothing};
ghost use Rattle.second_search.specs.JudgedParts.{
  AddsUp,
  AnswersAs,
  AreTrue,
  Changes,
  Done,
  DoneBy,
  EndsPart,
  Fills,
  FirstFilling,
  HasNoFilling,
  IsPlace,
  IsToldBy,
  IsTrueOf,
  Judges,
  Notes,
  Starts,
  Stops,
  cells_at,
  kept_at,
  parts_of,
};
ghost use Rattle.second_search.specs.Scene.{CanSearch, IsWhole, board_of};
ghost use Rattle.second_search.specs.Evaluations.{AreFew};

use crate::carrying::{answer_for, are_named, first_cell, same_lines};
use crate::counting::{Ending, Searched};
use crate::part_decision::decide_part;
use crate::parts::Parts;
use crate::scene::Scene;
use line_facts::{Facts, LineEngine, Meter};
use picture::{CellSet, LineSet, MAX_SIDE, Picture};
use std::alloc::{AllocError, Global};
use std::marker::Model;
use trail::Cell;

/// What is known of the other fillings of a part: nothing yet, or that there is none, or one of them. A judgement answers with a
/// known filling, skips a part without one, and searches a part of which nothing is known.
#[derive(Drop)]
pub enum Answer {
    Unknown,
    Nothing,
    Filling(Picture),
}

/// A part with what is known of it.
#[derive(Drop)]
pub struct KeptPart {
    cells: CellSet,
    answer: Answer,
}

/// The parts of a scene's facts, in their order, each with what is known of it.
#[derive(Drop)]
pub struct Keeper {
    kept: Vec<KeptPart>,
}

impl Model for Keeper {
    ghost use Rattle.std.specs.Prelude.{List};
    ghost use Rattle.second_search.specs.declared.keeper.KeptPart.{KeptPart};

    ghost Value = { List KeptPart };

    ghost view = { λ k. k.kept.items };
}

/// Whether another picture has the clues and the givens: there is none, or there is this one, or a part would take more
/// splits than are allowed.
#[derive(Drop)]
pub enum Judged<'a> {
    Unique,
    Other(&'a Picture),
    Undecided,
}

// How many parts were searched, how often they split, and how many lines were evaluated. Each count saturates.
#[derive(Clone, Copy)]
pub(crate) struct Spent {
    pub searched: u32,
    pub splits: u32,
    pub evaluations: u64,
}

const NOTHING_SPENT: Spent = Spent {
    searched: 0,
    splits: 0,
    evaluations: 0,
};

impl Spent {
    // The sum of each count.
    fn plus(self, more: Spent) -> Spent
        ensures { AddsUp self more result }
    {
        Spent {
            searched: self.searched.saturating_add(more.searched),
            splits: self.splits.saturating_add(more.splits),
            evaluations: self.evaluations.saturating_add(more.evaluations),
        }
    }
}

impl Keeper {
    ghost use Rattle.std.specs.Prelude.{MatchResult};
    ghost use Rattle.std.specs.Borrow.{sem};
    ghost use Rattle.second_search.specs.Lent.{ends_so};
    ghost use Rattle.second_search.specs.contracts.keeper.Keeper.{the_row};
    ghost use Rattle.second_search.specs.Verdict.{Verdict};

    /// Keeps the parts of facts, of which nothing is known yet.
    pub fn start(alloc: Global, facts: &Facts) -> Result<Keeper, AllocError>
        ensures { IfOk result (Starts facts.now) }
    {
        let parts = Parts::of(alloc, facts)?;
        let mut kept = Vec::new(alloc);
        for i in 0..parts.len() {
            kept.push(KeptPart {
                cells: *parts.cells(i),
                answer: Answer::Unknown,
            })?;
        }
        Ok(Keeper { kept })
    }

    /// Keeps the parts of another scene's facts. A part keeps what is known of it where each line through it has, under the same
    /// name, the same clue, length, colours left and cells of the picture in both scenes; another filling gets the other scene's
    /// picture elsewhere. Givens need no comparison: a cell of a part is open, so it is not given. Of each other part nothing is
    /// known. The parts kept so far must be those of the facts before, and what is known of them true; then what is kept of the
    /// parts after is true. Allocates with the allocator of this keeper.
    pub fn carry(&self, before: &Scene, after: &Scene) -> Result<Keeper, AllocError>
        requires before { IsScene before.now.clues.now before.now.givens.now before.now.facts.now
            before.now.picture.now }
        requires after { IsScene after.now.clues.now after.now.givens.now after.now.facts.now
            after.now.picture.now }
        requires parts { AreParts before.now.facts.now (parts_of self.now) }
        requires true_answers { AreTrue before.now.clues.now before.now.givens.now
            before.now.picture.now self.now }
        ensures parts { IfOk result (λ keeper. AreParts after.now.facts.now (parts_of keeper)) }
        ensures true_answers { IfOk result
            (AreTrue after.now.clues.now after.now.givens.now after.now.picture.now) }
        ensures carries { IfOk result
            (Carries (board_of before.now) (board_of after.now) self.now) }
    {
        let alloc = *self.kept.allocator();
        if self.knows_nothing() {
            return Keeper::start(alloc, after.facts);
        }
        let same = same_lines(before, after);
        let parts = Parts::of(alloc, after.facts)?;
        let mut kept = Vec::new(alloc);
        for i in 0..parts.len() {
            let cells = *parts.cells(i);
            let answer = self.carried(before, after, &same, &cells)?;
            kept.push(KeptPart { cells, answer })?;
        }
        Ok(Keeper { kept })
    }

    // Whether nothing is known of any part.
    fn knows_nothing(&self) -> bool
        ensures { IsTrue result ↔ KnowsNothing self.now (length self.now) }
    {
        for i in 0..self.kept.len() {
            let Answer::Unknown = self.kept[i].answer else {
                return false;
            };
        }
        true
    }

    // What is known of a part of the scene after: what was known of it, if all lines through it are the same, and else
    // nothing.
    fn carried(
        &self,
        before: &Scene,
        after: &Scene,
        same: &LineSet,
        cells: &CellSet,
    ) -> Result<Answer, AllocError>
        requires before { IsWhole before.now }
        requires after { IsWhole after.now }
        requires parts { AreParts before.now.facts.now (parts_of self.now) }
        requires true_answers { AreTrue before.now.clues.now before.now.givens.now
            before.now.picture.now self.now }
        requires same { AreSameLines (board_of before.now) (board_of after.now) same.now }
        requires part { IsPart after.now.facts.now cells.now }
        ensures carried { IfOk result
            (IsCarried (board_of before.now) (board_of after.now) self.now cells.now) }
        ensures true_answer { IfOk result
            (IsTrueOf after.now.clues.now after.now.givens.now after.now.picture.now cells.now) }
    {
        let _ = after.facts.height();
        if !are_named(same, cells, after.facts) {
            return Ok(Answer::Unknown);
        }
        let at = self.place_of(cells, before.facts);
        answer_for(&self.kept[at].answer, cells, after.picture)
    }

    // The place of a part of the facts among the parts that are kept.
    fn place_of(&self, cells: &CellSet, facts: &Facts) -> usize
        requires parts { AreParts facts.now (parts_of self.now) }
        requires part { IsPart facts.now cells.now }
        ensures place { result < length self.now }
        ensures cells { cells_at self.now result ≡ cells.now }
    {
        let _ = facts.height();
        match first_cell(cells, facts) {
            Some(cell) => match self.part_with(cell) {
                Some(i) => i,
                None => unreachable!(),
            },
            None => unreachable!(),
        }
    }

    // The first part that has a cell.
    fn part_with(&self, cell: Cell) -> Option<usize>
        requires in_rows { cell.row < MAX_SIDE }
        requires in_columns { cell.col < MAX_SIDE }
        ensures { MatchOption
            result
            ((i : ℕ) → i < length self.now → HasCell (cells_at self.now i) cell.row cell.col → ⊥)
            (λ i. (i < length self.now) × HasCell (cells_at self.now i) cell.row cell.col) }
    {
        for i in 0..self.kept.len() {
            if self.kept[i].cells.has(cell.row, cell.col) {
                return Some(i);
            }
        }
        None
    }

    /// Judges a picture by its parts, each with an allowance of splits where there is one. Where another filling of a part is kept,
    /// nothing is searched. Otherwise the parts of which nothing is known are searched in order, up to the first that has another
    /// filling or costs more splits than are allowed. What a search finds is kept, unless it is broken off. Adds to `searched` how
    /// many parts were searched, the last of them too if it was broken off, and to `splits` how often they split in the fixed
    /// order, without an allowance at most 100 times each; both counts saturate. Each part that is searched takes at least one
    /// evaluation, and where nothing is searched, no line is evaluated. Under an allowance of `n` splits a part takes at most
    /// `(1 + 16 n) (l + 16 c)` evaluations if the facts have `l` lines and `c` cells. Where memory runs out, what is kept and both
    /// counts stay as they were. The parts kept must be those of the scene's facts, and what is known of them true; no line may be
    /// longer than the engine's `longest`.
    pub fn judge<E: LineEngine>(
        &mut self,
        engine: &mut E,
        scene: &Scene,
        allowance: Option<u32>,
        meter: &mut Meter,
        searched: &mut u32,
        splits: &mut u32,
    ) -> Result<Judged<'_>, AllocError>
        requires scene { IsScene scene.now.clues.now scene.now.givens.now scene.now.facts.now
            scene.now.picture.now }
        requires parts { AreParts scene.now.facts.now (parts_of self.old) }
        requires true_answers { AreTrue scene.now.clues.now scene.now.givens.now
            scene.now.picture.now self.old }
        requires tall { length scene.now.clues.now.rows ≤ E.longest engine.old }
        requires wide { length scene.now.clues.now.columns ≤ E.longest engine.old }
        ensures* keeps { sem 𝓛 (ends_so the_row self.entry
            (λ last. AreParts scene.now.facts.now (parts_of last)
            × AreTrue scene.now.clues.now scene.now.givens.now scene.now.picture.now last
            × MatchResult result
            (λ judged. (verdict : Verdict) × (AnswersAs last judged verdict
            × Done searched.old searched.new splits.old splits.new meter.old meter.new
            (E.calls engine.old) (E.calls engine.new)
            (Judges (board_of scene.now) allowance self.old last verdict)))
            (λ _. last ≡ self.old))) }
        ensures answer { IfOk result
            (IsAnswer scene.now.clues.now scene.now.givens.now scene.now.picture.now) }
        ensures counts { (evaluations : ℕ)
            × Counts evaluations 0 meter.old meter.new (E.calls engine.old) (E.calls engine.new)
            × AreFew allowance scene.now.facts.now (length self.old) evaluations }
        ensures rises { (searched.old ≤ searched.new) × (splits.old ≤ splits.new) }
        ensures as_before { OnErr result
            ((searched.new ≡ searched.old) × (splits.new ≡ splits.old)) }
        ensures same_longest { E.longest engine.new ≡ E.longest engine.old }
    {
        let _trials = meter.trials;
        let before = engine.calls();
        let (is_decided, spent) = match self.decide(engine, scene, allowance) {
            Ok(decided) => decided,
            Err(refused) => {
                let evaluations = engine.calls() - before;
                meter.evaluations = meter.evaluations.saturating_add(evaluations);
                return Err(refused);
            }
        };
        meter.evaluations = meter.evaluations.saturating_add(spent.evaluations);
        *searched = searched.saturating_add(spent.searched);
        *splits = splits.saturating_add(spent.splits);
        Ok(self.judged(is_decided))
    }

    // The answer: the first other filling that is kept; where none is kept, unique or undecided.
    fn judged(&self, is_decided: bool) -> Judged<'_>
        ensures { (verdict : Verdict) → IsToldBy is_decided self.now verdict
            → AnswersAs self.now result verdict }
    {
        match self.other() {
            Some(picture) => Judged::Other(picture),
            None if is_decided => Judged::Unique,
            None => Judged::Undecided,
        }
    }

    // Judges a picture by its parts, and keeps what the searches that ended found. Returns whether none was broken off, and what
    // was spent.
    fn decide<E: LineEngine>(
        &mut self,
        engine: &mut E,
        scene: &Scene,
        allowance: Option<u32>,
    ) -> Result<(bool, Spent), AllocError>
        requires can { CanSearch scene.now (E.longest engine.old) }
        requires parts { AreParts scene.now.facts.now (parts_of self.old) }
        requires true_answers { AreTrue scene.now.clues.now scene.now.givens.now
            scene.now.picture.now self.old }
        ensures judges { IfOk result (λ decided. (verdict : Verdict)
            × (IsToldBy decided.0 self.new verdict
            × DoneBy decided.1 (E.calls engine.old) (E.calls engine.new)
            (Judges (board_of scene.now) allowance self.old self.new verdict))) }
        ensures spent { IfOk result (λ decided.
            AreFew allowance scene.now.facts.now (length self.old) decided.1.evaluations) }
        ensures few { AreFew allowance scene.now.facts.now (length self.old)
            (E.calls engine.new - E.calls engine.old) }
        ensures refused { OnErr result (self.new ≡ self.old) }
        ensures parts { AreParts scene.now.facts.now (parts_of self.new) }
        ensures true_answers { AreTrue scene.now.clues.now scene.now.givens.now
            scene.now.picture.now self.new }
        ensures calls { E.calls engine.old ≤ E.calls engine.new }
        ensures same_longest { E.longest engine.new ≡ E.longest engine.old }
    {
        let _ = engine.calls();
        match self.other() {
            Some(_) => Ok((true, NOTHING_SPENT)),
            None => {
                let (at, ending, spent) = self.search_parts(engine, scene, allowance)?;
                let is_decided = self.note(at, ending);
                Ok((is_decided, spent))
            }
        }
    }

    /// The first other filling that is kept, if there is one: after a judgement that answered another picture, that picture.
    pub fn other(&self) -> Option<&Picture>
        ensures { MatchOption result (HasNoFilling self.now (length self.now))
            (λ other. FirstFilling self.now other.now) }
    {
        for i in 0..self.kept.len() {
            if let Answer::Filling(picture) = &self.kept[i].answer {
                return Some(picture);
            }
        }
        None
    }

    // Goes along the parts, and searches those of which nothing is known, up to the first that has another filling or costs more
    // than is allowed. Returns the place of that part, or the number of parts if there is none, how the search there ended, and
    // what was spent.
    fn search_parts<E: LineEngine>(
        &self,
        engine: &mut E,
        scene: &Scene,
        allowance: Option<u32>,
    ) -> Result<(usize, Ending, Spent), AllocError>
        requires can { CanSearch scene.now (E.longest engine.old) }
        requires parts { (i : ℕ) → i < length self.now
            → IsPart scene.now.facts.now (cells_at self.now i) }
        ensures stops { IfOk result (λ gone. DoneBy gone.2 (E.calls engine.old)
            (E.calls engine.new) (Stops (board_of scene.now) allowance self.now gone.0 gone.1)) }
        ensures spent { IfOk result (λ gone.
            AreFew allowance scene.now.facts.now (length self.now) gone.2.evaluations) }
        ensures few { AreFew allowance scene.now.facts.now (length self.now)
            (E.calls engine.new - E.calls engine.old) }
        ensures calls { E.calls engine.old ≤ E.calls engine.new }
        ensures same_longest { E.longest engine.new ≡ E.longest engine.old }
    {
        let _ = engine.calls();
        let mut spent = NOTHING_SPENT;
        for i in 0..self.kept.len() {
            let (ending, here) = self.search_one(i, engine, scene, allowance)?;
            spent = spent.plus(here);
            let Ending::Nothing = ending else {
                return Ok((i, ending, spent));
            };
        }
        Ok((self.kept.len(), Ending::Nothing, spent))
    }

    // Searches a part, unless something is known of it already. Returns how the search ended, and what was spent.
    fn search_one<E: LineEngine>(
        &self,
        i: usize,
        engine: &mut E,
        scene: &Scene,
        allowance: Option<u32>,
    ) -> Result<(Ending, Spent), AllocError>
        requires place { i < length self.now }
        requires can { CanSearch scene.now (E.longest engine.old) }
        requires part { IsPart scene.now.facts.now (cells_at self.now i) }
        ensures ends { IfOk result (λ ended. DoneBy ended.1 (E.calls engine.old)
            (E.calls engine.new)
            (EndsPart (board_of scene.now) allowance (kept_at self.now i) ended.0)) }
        ensures spent { IfOk result (λ ended.
            AreFew allowance scene.now.facts.now 1 ended.1.evaluations) }
        ensures few { AreFew allowance scene.now.facts.now 1
            (E.calls engine.new - E.calls engine.old) }
        ensures calls { E.calls engine.old ≤ E.calls engine.new }
        ensures same_longest { E.longest engine.new ≡ E.longest engine.old }
    {
        let before = engine.calls();
        let _ = scene.facts.height();
        let part = &self.kept[i];
        // No filling is kept here: `decide` answers one before it searches.
        let Answer::Unknown = part.answer else {
            return Ok((Ending::Nothing, NOTHING_SPENT));
        };
        let alloc = *self.kept.allocator();
        let searched = decide_part(alloc, engine, scene, &part.cells, allowance)?;
        let Searched { ending, splits } = searched;
        // A saturated count of the engine's calls does not rise.
        let evaluations = (engine.calls() - before).max(1);
        let spent = Spent {
            searched: 1,
            splits,
            evaluations,
        };
        Ok((ending, spent))
    }

    // Notes what going along the parts found, at the part where it stopped, and returns whether no search was broken off.
    fn note(&mut self, at: usize, ending: Ending) -> bool
        requires { IsPlace self.old at ending }
        ensures { Notes self.old self.new at ending result }
    {
        self.pass_to(at);
        match ending {
            Ending::Nothing => true,
            Ending::Found(picture) => {
                self.fill(at, picture);
                true
            }
            Ending::BrokenOff => false,
        }
    }

    // Notes that the first parts have no other filling.
    fn pass_to(&mut self, end: usize)
        requires { end ≤ length self.old }
        ensures { Changes self.old self.new end }
    {
        for i in 0..end {
            self.kept[i].answer = Answer::Nothing;
        }
    }

    // Notes another filling of a part.
    fn fill(&mut self, i: usize, picture: Picture)
        requires { i < length self.old }
        ensures { Fills self.old self.new i picture }
    {
        self.kept[i].answer = Answer::Filling(picture);
    }
}
