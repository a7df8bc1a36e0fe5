//! The turns of lines: in each round those of the rows from the top, and then those of the columns from the left.

ghost use Rattle.std.specs.Prelude.{◌≡◌, ◌+◌, ◌-◌, ◌^◌, ◌<◌, ◌≤◌, MatchOption};
ghost use Rattle.picture.specs.LineSet.{IsClearFrom, mask_along, no_names};
ghost use Rattle.picture.specs.Rows.{lines_along, HasLine};
ghost use Rattle.line_facts.specs.FactSets.{IsFacts};
ghost use Rattle.fixpoint.specs.LineNames.{AreLinesOf};
ghost use Rattle.grade.specs.Runs.{first_turn, next_turn};
ghost use Rattle.grade.specs.Walking.{IsFirstAlong, IsNextWaiting, turn_over};

use line_facts::Facts;
use picture::{Axis, LineId, LineSet, MAX_SIDE};

/// The turn of a line in a round. Rounds are counted from 1.
#[derive(Clone, Copy)]
pub struct Turn {
    pub round: u64,
    pub line: LineId,
}

impl Turn {
    // The first turn of the first round.
    pub(crate) fn first() -> Turn
        ensures { result ≡ first_turn }
    {
        let line = LineId {
            axis: Axis::Across,
            at: 0,
        };
        Turn { round: 1, line }
    }

    // The turn that follows this one.
    pub(crate) fn next(self, facts: &Facts) -> Turn
        requires line { HasLine facts.now self.line }
        requires room { self.round < 2 ^ 64 - 1 }
        ensures next { result ≡ next_turn facts.now self }
        ensures line { HasLine facts.now result.line }
        ensures round { result.round ≤ self.round + 1 }
    {
        let axis = self.line.axis;
        let count = line_count(facts, axis);
        let at = self.line.at + 1;
        if at < count {
            let line = LineId { axis, at };
            return Turn {
                round: self.round,
                line,
            };
        }
        self.over()
    }

    // The first turn along the other axis: after the rows come the columns, and after these the rows of the next round.
    fn over(self) -> Turn
        requires { self.round < 2 ^ 64 - 1 }
        ensures { result ≡ turn_over self.round self.line.axis }
    {
        let axis = self.line.axis.crossing();
        let round = match axis {
            Axis::Across => self.round + 1,
            Axis::Down => self.round,
        };
        let line = LineId { axis, at: 0 };
        Turn { round, line }
    }

    // This turn, or the first one after it along the same axis, whose line waits.
    fn along(self, due: &LineSet) -> Option<Turn>
        requires { self.line.at ≤ MAX_SIDE }
        ensures { MatchOption
            result
            (IsClearFrom (mask_along self.line.axis due.now) self.line.at)
            (IsFirstAlong due.now self) }
    {
        let at = due.first_from(self.line.axis, self.line.at)?;
        let line = LineId {
            axis: self.line.axis,
            at,
        };
        Some(Turn {
            round: self.round,
            line,
        })
    }

    // This turn, or the first one after it, whose line waits.
    pub(crate) fn next_waiting(self, due: &LineSet, facts: &Facts) -> Option<Turn>
        requires lines { AreLinesOf facts.now due.now }
        requires line { HasLine facts.now self.line }
        requires room { self.round < 2 ^ 64 - 2 }
        ensures { MatchOption
            result
            (due.now ≡ no_names)
            (IsNextWaiting facts.now due.now self) }
    {
        let _ = facts.height();
        if let Some(turn) = self.along(due) {
            return Some(turn);
        }
        let over = self.over();
        if let Some(turn) = over.along(due) {
            return Some(turn);
        }
        over.over().along(due)
    }
}

// How many lines there are along an axis.
fn line_count(facts: &Facts, axis: Axis) -> u8
    ensures value { result ≡ lines_along axis facts.now }
    ensures few { result ≤ MAX_SIDE }
    ensures facts { IsFacts facts.now }
{
    match axis {
        Axis::Across => facts.height(),
        Axis::Down => facts.width(),
    }
}
