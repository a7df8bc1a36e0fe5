//! The figures of a run of line logic.

ghost use Rattle.std.specs.Prelude.{◌≡◌, ◌+◌, ◌^◌, ◌<◌, ◌≤◌, List, [], ◌∷◌, length};
ghost use Rattle.line_facts.specs.Masks.{Masks};
ghost use Rattle.grade.specs.Figures.{open_cells};
ghost use Rattle.grade.specs.Looks.{Look};
ghost use Rattle.grade.specs.Tallies.{Tallies};
ghost use Rattle.grade.specs.Walking.{seen_in};
ghost use Rattle.grade.specs.Runs.{look_in};

use crate::seen::Seen;
use line_facts::Facts;

/// The figures of line logic on a puzzle.
#[derive(Clone, Copy, Debug, PartialEq, Eq)]
pub struct Figures {
    /// The last round, from 1, in which something was excluded; 0 if nothing ever was.
    pub rounds: u64,
    /// How many looks at lines there were, those that excluded nothing among them.
    pub evaluations: u64,
    /// The longest wait for a cell to fall, in looks.
    pub wait: u64,
    /// How many cells can have more than one colour at the end.
    pub open: u64,
}

// The figures of the looks so far, but for the open cells, and how many looks there were since a cell fell.
#[derive(Clone, Copy)]
pub struct Tally {
    rounds: u64,
    evaluations: u64,
    wait: u64,
    since_fall: u64,
}

impl Tally {
    // The figures before the first look.
    pub(crate) fn start() -> Tally
        ensures { Tallies [] result }
    {
        Tally {
            rounds: 0,
            evaluations: 0,
            wait: 0,
            since_fall: 0,
        }
    }

    // Counts a look.
    pub(crate) fn count(&mut self, seen: &Seen)
        requires same_length { length seen.now.after ≡ length seen.now.before }
        requires few { self.old.evaluations < 2 ^ 32 }
        requires fewer { self.old.since_fall ≤ self.old.evaluations }
        ensures tallies { (earlier : List Look) (before after : Masks)
            → Tallies earlier self.old
            → seen.now ≡ seen_in seen.now.turn before after
            → Tallies (look_in seen.now.turn before after ∷ earlier) self.new }
        ensures evaluations { self.new.evaluations ≡ self.old.evaluations + 1 }
        ensures since { self.new.since_fall ≤ self.new.evaluations }
    {
        self.evaluations += 1;
        self.since_fall += 1;
        if seen.excluded() != 0 {
            self.rounds = seen.turn.round;
        }
        if seen.fallen() != 0 {
            self.wait = self.wait.max(self.since_fall);
            self.since_fall = 0;
        }
    }

    // The figures of the looks so far, where these facts are the end.
    pub(crate) fn figures(self, facts: &Facts) -> Figures
        ensures rounds { result.rounds ≡ self.rounds }
        ensures evaluations { result.evaluations ≡ self.evaluations }
        ensures wait { result.wait ≡ self.wait }
        ensures open_cells { result.«open» ≡ open_cells facts.now }
    {
        Figures {
            rounds: self.rounds,
            evaluations: self.evaluations,
            wait: self.wait,
            open: open_cells(facts),
        }
    }
}

// How many cells can have more than one colour.
pub(crate) fn open_cells(facts: &Facts) -> u64
    ensures { result ≡ open_cells facts.now }
{
    let mut count = 0;
    for row in 0..facts.height() {
        for col in 0..facts.width() {
            if facts.left(row, col).count_ones() > 1 {
                count += 1;
            }
        }
    }
    count
}
