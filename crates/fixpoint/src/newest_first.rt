//! The worklist that takes the newest line first.

ghost use Rattle.std.specs.Prelude.{◌≡◌, ◌<◌, []};
ghost use Rattle.picture.specs.LineSet.{PutsName, PutsNames, no_names};
ghost use Rattle.fixpoint.specs.Agenda.{Takes};
ghost use Rattle.fixpoint.specs.Agenda.{PutsAlong};
ghost use Rattle.fixpoint.specs.Orders.{PutsAbove, PutsNewest, TakesNewest, pile};

use crate::agenda::Agenda;
use picture::{Axis, LineId, LineSet, MAX_SIDE};
use std::marker::Model;

// How many lines a picture has at most.
const MOST_LINES: usize = 2 * MAX_SIDE as usize;

/// An agenda that takes the line that was put on last and is still there. A line that is put on while it waits keeps
/// its place. Its table has a fixed size, so it allocates nothing.
#[derive(Drop)]
pub struct NewestFirst {
    stack: [LineId; MOST_LINES],
    len: usize,
    lines: LineSet,
}

impl Model for NewestFirst {
    ghost use Rattle.std.specs.Prelude.{take};
    ghost use Rattle.fixpoint.specs.Agenda.{IsStack};
    ghost use Rattle.fixpoint.specs.Orders.{Pile, pile};

    ghost Value = { Pile };

    ghost view = { λ a. pile a.lines (take a.len a.stack) };

    ghost invariant = { λ a. IsStack a.stack a.len a.lines };
}

impl NewestFirst {
    /// The empty agenda.
    pub fn make() -> NewestFirst
        ensures { result ≡ pile no_names [] }
    {
        let axis = Axis::Across;
        let none = LineId { axis, at: 0 };
        NewestFirst {
            stack: [none; MOST_LINES],
            len: 0,
            lines: LineSet::empty(),
        }
    }

    // Puts the lines of a set along an axis on the agenda, in ascending order.
    fn put_along(&mut self, lines: &LineSet, axis: Axis)
        ensures members { PutsAlong axis lines.now self.old.waiting self.new.waiting }
        ensures newest { PutsAbove self.old.order self.new.order }
    {
        let mut from = 0;
        while let Some(at) = lines.first_from(axis, from) {
            self.put(LineId { axis, at });
            from = at + 1;
        }
    }
}

impl Agenda for NewestFirst {
    ghost members = { λ a. a.waiting };

    fn put(&mut self, line: LineId)
        requires { line.at < MAX_SIDE }
        ensures members { PutsName self.old.waiting self.new.waiting line }
        ensures newest { PutsNewest self.old self.new line }
    {
        if !self.lines.has(line) {
            self.lines.put(line);
            self.stack[self.len] = line;
            self.len += 1;
        }
    }

    fn put_all(&mut self, lines: &LineSet)
        ensures members { PutsNames self.old.waiting self.new.waiting lines.now }
        ensures newest { PutsAbove self.old.order self.new.order }
    {
        self.put_along(lines, Axis::Across);
        self.put_along(lines, Axis::Down);
    }

    fn take(&mut self) -> Option<LineId>
        ensures members { Takes self.old.waiting self.new.waiting result }
        ensures newest { TakesNewest self.old self.new result }
    {
        if self.len == 0 {
            return None;
        }
        self.len -= 1;
        let line = self.stack[self.len];
        self.lines.take_out(line);
        Some(line)
    }

    fn clear(&mut self)
        ensures members { self.new.waiting ≡ no_names }
        ensures start { self.new ≡ pile no_names [] }
    {
        self.lines = LineSet::empty();
        self.len = 0;
    }
}
