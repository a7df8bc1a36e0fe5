//! The search in a fixed order, which counts its splits and may be broken off.

ghost use Rattle.std.specs.Prelude.{◌≡◌, ◌+◌, ◌-◌, ◌<◌, ◌≤◌, ℕ, IfOk, OnOk};
ghost use Rattle.picture.specs.LineSet.{name_count};
ghost use Rattle.fixpoint.specs.ClosedFacts.{AreClosable, QuietOutside};
ghost use Rattle.fixpoint.specs.LineNames.{AreLinesOf};
ghost use Rattle.line_facts.specs.FactSets.{SameShape};
ghost use Rattle.second_search.specs.SettledFacts.{AreRowsSettled, ShowOthers};
ghost use Rattle.second_search.specs.FixedOrder.{EndsAs, IsCalled, raised};
ghost use Rattle.second_search.specs.SearchSteps.{Compares, Spends, Steps};
ghost use Rattle.second_search.specs.Evaluations.{AreFew, most_to_close};

use crate::coming::{Coming, Due, come_to};
use clues::ClueBook;
use line_facts::{Facts, LineEngine};
use picture::{LineSet, Picture};
use std::alloc::{AllocError, Global};
use trail::Trail;

/// How a search ended: there is no other picture, or there is this one, or the search was broken off where it would have split once
/// more than allowed.
#[derive(Drop)]
pub enum Ending {
    Nothing,
    Found(Picture),
    BrokenOff,
}

/// The result of a search: how it ended, and how often it split, a count that saturates.
#[derive(Drop)]
pub struct Searched {
    pub ending: Ending,
    pub splits: u32,
}

// Where a search starts: facts, the lines that may still exclude something there, and how many splits it may make, if not any
// number.
#[derive(Drop)]
pub(crate) struct Start {
    pub facts: Facts,
    pub lines: LineSet,
    pub allowance: Option<u32>,
}

// How many splits are left, if there is an allowance, and how many were made.
#[derive(Clone, Copy)]
pub(crate) struct Budget {
    pub left: Option<u32>,
    pub splits: u32,
}

impl Budget {
    // What is left after one more split. None where no split is left.
    fn spend(self) -> Option<Budget>
        ensures { Spends self result }
    {
        let left = match self.left {
            Some(0) => return None,
            Some(n) => Some(n - 1),
            None => None,
        };
        let splits = self.splits.saturating_add(1);
        Some(Budget { left, splits })
    }
}

// A search under way: the branches that wait, what is due at the current one, and the splits that are left and made.
#[derive(Drop)]
pub(crate) struct Counted {
    pub trail: Trail,
    pub due: Due,
    pub budget: Budget,
}

// Searches facts for a picture other than a known one. `start` must name at least one line, and each line that it does not name
// must be quiet. After a split, only the two lines of the split cell need not be quiet, since closed facts were split, and the rows
// above that cell are settled. An allowance bounds the splits and, with them, the evaluations.
pub(crate) fn search_counted<E: LineEngine>(
    alloc: Global,
    engine: &mut E,
    book: &ClueBook,
    known: &Picture,
    start: Start,
) -> Result<Searched, AllocError>
    requires closable { AreClosable book.now (E.longest engine.old) start.facts }
    requires lines { AreLinesOf start.facts start.lines }
    requires quiet { QuietOutside book.now start.facts start.lines }
    requires some { 0 < name_count start.lines }
    requires same_shape { SameShape known.now start.facts }
    requires others { ShowOthers known.now start.lines start.facts }
    ensures ends { IfOk result (λ searched. (n : ℕ) × ((searched.splits ≡ raised 0 n)
        × EndsAs book.now known.now start.facts start.allowance searched.ending n)) }
    ensures calls { E.calls engine.old ≤ E.calls engine.new }
    ensures called { OnOk result (IsCalled (E.calls engine.old) (E.calls engine.new)) }
    ensures few { AreFew start.allowance start.facts 1 (E.calls engine.new - E.calls engine.old) }
    ensures same_longest { E.longest engine.new ≡ E.longest engine.old }
{
    let _ = (known.height(), start.facts.height());
    let Start {
        facts,
        lines,
        allowance,
    } = start;
    let mut search = Counted {
        trail: Trail::start(alloc, facts),
        due: Due {
            lines,
            rows: lines,
            top: 0,
        },
        budget: Budget {
            left: allowance,
            splits: 0,
        },
    };
    loop {
        let found = search.look_once(engine, book, known)?;
        let splits = search.budget.splits;
        match found {
            Some(ending) => return Ok(Searched { ending, splits }),
            None => {}
        }
        let Some(cell) = search.trail.advance()? else {
            let ending = Ending::Nothing;
            return Ok(Searched { ending, splits });
        };
        search.due = Due {
            lines: cell.lines(),
            rows: lines,
            top: cell.row,
        };
    }
}

impl Counted {
    // Looks at the current facts once, and splits them if they need it and a split is left. None where the search goes on.
    fn look_once<E: LineEngine>(
        &mut self,
        engine: &mut E,
        book: &ClueBook,
        known: &Picture,
    ) -> Result<Option<Ending>, AllocError>
        requires closable { AreClosable book.now (E.longest engine.old) self.old.trail.at_hand }
        requires lines { AreLinesOf self.old.trail.at_hand self.old.due.lines }
        requires quiet { QuietOutside book.now self.old.trail.at_hand self.old.due.lines }
        requires some { 0 < name_count self.old.due.lines }
        requires above { AreRowsSettled self.old.trail.at_hand self.old.due.top }
        requires same_shape { SameShape known.now self.old.trail.at_hand }
        requires others { ShowOthers known.now self.old.due.rows self.old.trail.at_hand }
        ensures steps { IfOk result (Steps book.now known.now self.old.trail self.new.trail
            self.old.budget self.new.budget) }
        ensures calls { E.calls engine.old ≤ E.calls engine.new }
        ensures called { OnOk result (IsCalled (E.calls engine.old) (E.calls engine.new)) }
        ensures few { E.calls engine.new
            ≤ E.calls engine.old + most_to_close self.old.trail.at_hand }
        ensures same_longest { E.longest engine.new ≡ E.longest engine.old }
    {
        let (coming, changed) = come_to(engine, book, known, self.trail.at_hand(), &self.due)?;
        match coming {
            Coming::Dies => Ok(None),
            Coming::Ends(picture) => Ok(compare(picture, known)),
            Coming::Splits(settled, cell) => {
                let Some(budget) = self.budget.spend() else {
                    return Ok(Some(Ending::BrokenOff));
                };
                self.budget = budget;
                self.trail.narrow(&settled, &changed)?;
                self.trail.split(cell)?;
                Ok(None)
            }
        }
    }
}

// None where a picture is the known one, so that the search goes on.
fn compare(picture: Picture, known: &Picture) -> Option<Ending>
    ensures { Compares known.now picture result }
{
    if picture.same(known) {
        None
    } else {
        Some(Ending::Found(picture))
    }
}
