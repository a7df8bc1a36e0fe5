//! Sweeping a line: drawing what it excludes, and leaving out what is not needed for that.

ghost use Rattle.std.specs.Prelude.{◌≡◌, ℕ, ◌≤◌, length, slice_index, IsBitSet};
ghost use Rattle.line_settle.specs.LeftOut.{ForcesAll};

use clues::Clue;
use line_facts::LineEngine;
use line_settle::leave_out;
use picture::MAX_SIDE;

// Takes the colours of some masks out of others.
fn take_out(left: &[u16], out: &[u16], drawn: &mut [u16])
    requires same_left { length left.now ≡ length drawn.old }
    requires same_out { length out.now ≡ length drawn.old }
    ensures { (i k : ℕ) → IsBitSet (slice_index drawn.new i) k → IsBitSet (slice_index out.now i) k
        → ⊥ }
{
    for i in 0..drawn.len() {
        drawn[i] = left[i] & !out[i];
    }
}

/// Draws what a line excludes, by one evaluation. `out` is a buffer for its answer.
pub fn draw<E: LineEngine>(
    engine: &mut E,
    clue: &Clue,
    left: &[u16],
    out: &mut [u16],
    drawn: &mut [u16],
)
    requires same_out { length out.old ≡ length left.now }
    requires same_drawn { length drawn.old ≡ length left.now }
    requires short { length left.now ≤ E.longest engine.old }
    ensures { ForcesAll clue.now left.now drawn.new }
{
    let mut count = 0;
    engine.narrow(&mut count, clue, left, out);
    take_out(left, out, drawn);
}

/// Leaves out what is not needed to force what is drawn, `rounds` times from the start.
pub fn leave_out_often(clue: &Clue, drawn: &[u16], left: &[u16], rounds: u32, kept: &mut [u16])
    requires same_drawn { length drawn.now ≡ length left.now }
    requires same_kept { length kept.old ≡ length left.now }
    requires short { length left.now ≤ MAX_SIDE }
    requires forced { ForcesAll clue.now left.now drawn.now }
{
    for _ in 0..rounds {
        kept.copy_from_slice(left);
        leave_out(clue, drawn, kept);
    }
}
