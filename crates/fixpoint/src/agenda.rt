//! The trait of agendas: worklists of lines that wait to be evaluated.

ghost use Rattle.std.specs.Prelude.{◌≡◌, ◌<◌};
ghost use Rattle.picture.specs.LineSet.{Lines, PutsName, PutsNames, no_names};
ghost use Rattle.fixpoint.specs.Agenda.{Takes};

use picture::{LineId, LineSet, MAX_SIDE};

/// Lines that wait to be evaluated. Each agenda has its own order in which they are taken.
pub trait Agenda {
    ghost members: { Self → Lines };

    /// Puts a line on the agenda, which may have it already. Allocates nothing.
    fn put(&mut self, line: LineId)
        requires { line.at < MAX_SIDE }
        ensures { PutsName (members self.old) (members self.new) line };

    /// Puts all lines of a set on the agenda. Allocates nothing.
    fn put_all(&mut self, lines: &LineSet)
        ensures { PutsNames (members self.old) (members self.new) lines.now };

    /// Takes a line off the agenda. There is none exactly where the agenda is empty. Allocates nothing.
    fn take(&mut self) -> Option<LineId>
        ensures { Takes (members self.old) (members self.new) result };

    /// Takes all lines off the agenda. Allocates nothing.
    fn clear(&mut self)
        ensures { members self.new ≡ no_names };
}
