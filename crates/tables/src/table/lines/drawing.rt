//! Drawing what a line forces, and leaving out what is not needed for that.

ghost use Rattle.std.specs.Prelude.{◌≡◌, ℕ, ◌≤◌, length, slice_index, IsBitSet};

use anyhow::{Result, ensure};
use clues::Clue;
use line_facts::LineEngine;
use line_settle::leave_out;

/// Draws those of some colours that a line excludes, and leaves out what they don't need. Returns drawn and kept masks.
pub fn draw_and_leave_out<E: LineEngine>(
    engine: &mut E,
    clue: &Clue,
    left: &[u16],
    among: &[u16],
) -> Result<([u16; 120], [u16; 120])> {
    ensure!(left.len() <= 120, "a line has at most 120 cells");
    ensure!(left.len() == among.len(), "lines of one length");
    ensure!(
        left.len() <= usize::from(engine.longest()),
        "too many cells"
    );
    let mut drawn = [0; 120];
    let mut kept = [0; 120];
    draw(
        engine,
        clue,
        left,
        among,
        &mut drawn[..left.len()],
        &mut kept[..left.len()],
    );
    Ok((drawn, kept))
}

// The same, into buffers of the length of the line.
fn draw<E: LineEngine>(
    engine: &mut E,
    clue: &Clue,
    left: &[u16],
    among: &[u16],
    drawn: &mut [u16],
    kept: &mut [u16],
)
    requires same_colours { length among.now ≡ length left.now }
    requires same_drawn { length drawn.old ≡ length left.now }
    requires same_kept { length kept.old ≡ length left.now }
    requires short { length left.now ≤ 120 }
    requires engine_room { length left.now ≤ E.longest engine.old }
{
    engine.narrow(&mut 0, clue, left, kept);
    draw_among(kept, among, drawn);
    kept.copy_from_slice(left);
    leave_out(clue, drawn, kept);
}

// Draws those of some colours that are not left.
fn draw_among(out: &[u16], among: &[u16], drawn: &mut [u16])
    requires same_length { length out.now ≡ length drawn.old }
    requires same_colours { length among.now ≡ length drawn.old }
    ensures { (i k : ℕ) → IsBitSet (slice_index drawn.new i) k → IsBitSet (slice_index out.now i) k
        → ⊥ }
{
    for i in 0..drawn.len() {
        drawn[i] = among[i] & !out[i];
    }
}
