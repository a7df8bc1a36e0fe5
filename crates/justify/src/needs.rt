//! Which premises a line needs: the sweep of `line_settle`, turned into premises.

ghost use Rattle.std.specs.Prelude.{◌≡◌, ◌≤◌, length, IfOk};
ghost use Rattle.line_settle.specs.LeftOut.{ForcesAll};
ghost use Rattle.justify.specs.Needs.{AreNeeded};

use crate::masks::{MOST_CELLS, complement};
use crate::premise::Premises;
use clues::Clue;
use line_settle::leave_out;
use std::alloc::{AllocError, Global};

// The premises that a line needs to force all that `drawn` has, of all colours that the masks `left` exclude. It
// overwrites `left`. It is not inlined, so that a profiler can see it.
#[inline(never)]
pub(crate) fn needed_for(
    alloc: Global,
    clue: &Clue,
    drawn: &[u16],
    left: &mut [u16],
) -> Result<Premises, AllocError>
    requires same_length { length drawn.now ≡ length left.old }
    requires short { length left.old ≤ MOST_CELLS }
    requires forced { ForcesAll clue.now left.old drawn.now }
    ensures { IfOk result (AreNeeded clue.now left.old drawn.now) }
{
    leave_out(clue, drawn, left);
    complement(left);
    Premises::from_masks(alloc, left)
}
