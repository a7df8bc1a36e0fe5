//! The worklist in cyclic order: rows, then columns, by number.

ghost use Rattle.std.specs.Prelude.{◌≡◌, ◌<◌, ◌≤◌, MatchOption};
ghost use Rattle.picture.specs.LineSet.{PutsName, PutsNames, no_names};
ghost use Rattle.fixpoint.specs.Agenda.{Takes};
ghost use Rattle.fixpoint.specs.Orders.{IsNextRound, TakesNextRound, place_along, round};

use crate::agenda::Agenda;
use picture::{Axis, LineId, LineSet, MAX_SIDE};
use std::marker::Model;

/// An agenda in cyclic order: rows by number, then columns by number, on from the line that was taken last. It begins
/// with the first row, and does so again after `clear`. Its table has a fixed size, so it allocates nothing.
#[derive(Drop)]
pub struct InOrder {
    lines: LineSet,
    axis: Axis,
    from: u8,
}

impl Model for InOrder {
    ghost use Rattle.std.specs.Prelude.{◌≤◌};
    ghost use Rattle.picture.specs.declared.picture.TheConstants.{MAX_SIDE};
    ghost use Rattle.picture.specs.LineSet.{IsLineSet};
    ghost use Rattle.fixpoint.specs.Orders.{Round, place_along, round};

    ghost Value = { Round };

    ghost view = { λ a. round a.lines (place_along a.axis a.from) };

    ghost invariant = { λ a. IsLineSet a.lines × (a.from ≤ MAX_SIDE) };
}

impl InOrder {
    /// The empty agenda.
    pub fn make() -> InOrder
        ensures { result ≡ round no_names 0 }
    {
        InOrder {
            lines: LineSet::empty(),
            axis: Axis::Across,
            from: 0,
        }
    }
}

impl Agenda for InOrder {
    ghost members = { λ a. a.waiting };

    fn put(&mut self, line: LineId)
        requires { line.at < MAX_SIDE }
        ensures members { PutsName self.old.waiting self.new.waiting line }
        ensures same_place { self.new.from ≡ self.old.from }
    {
        self.lines.put(line);
    }

    fn put_all(&mut self, lines: &LineSet)
        ensures members { PutsNames self.old.waiting self.new.waiting lines.now }
        ensures same_place { self.new.from ≡ self.old.from }
    {
        self.lines.put_all(lines);
    }

    fn take(&mut self) -> Option<LineId>
        ensures members { Takes self.old.waiting self.new.waiting result }
        ensures next { TakesNextRound self.old self.new result }
    {
        let line = next_line(&self.lines, self.axis, self.from)?;
        self.lines.take_out(line);
        self.axis = line.axis;
        self.from = line.at + 1;
        Some(line)
    }

    fn clear(&mut self)
        ensures members { self.new.waiting ≡ no_names }
        ensures start { self.new ≡ round no_names 0 }
    {
        *self = InOrder::make();
    }
}

// The first line from a place on, in cyclic order.
fn next_line(lines: &LineSet, axis: Axis, from: u8) -> Option<LineId>
    requires { from ≤ MAX_SIDE }
    ensures { MatchOption
        result
        (lines.now ≡ no_names)
        (λ line. (line.at < MAX_SIDE)
        × IsNextRound (round lines.now (place_along axis from)) line) }
{
    if let Some(at) = lines.first_from(axis, from) {
        return Some(LineId { axis, at });
    }
    let crossing = axis.crossing();
    if let Some(at) = lines.first_from(crossing, 0) {
        return Some(LineId { axis: crossing, at });
    }
    let at = lines.first_from(axis, 0)?;
    Some(LineId { axis, at })
}
