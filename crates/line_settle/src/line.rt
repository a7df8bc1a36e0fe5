//! Line solving with tables of truth values, for the plain engine.

ghost use Rattle.std.specs.Prelude.{◌≡◌, ◌+◌, ◌*◌, ◌<◌, ◌≤◌, length};
ghost use Rattle.clues.specs.Clue.{IsClue};
ghost use Rattle.line_facts.specs.NarrowedLine.{Narrows};

use crate::pattern::spell;
use crate::tables::{collect, mark_finishing};
use clues::Block;
use line_facts::Outcome;

/// Narrows a line by its clue, with tables over the clue's pattern. The last three are buffers.
pub fn narrow_line(
    blocks: &[Block],
    left: &[u16],
    out: &mut [u16],
    pattern: &mut [u8],
    row: &mut [bool],
    table: &mut [bool],
) -> Outcome
    requires blocks_of_clue { IsClue blocks.now }
    requires same_length { length left.now ≡ length out.old }
    requires pattern_room { length left.now < length pattern.old }
    requires small { length pattern.old ≤ 256 }
    requires row_room { length pattern.old ≤ length row.old }
    requires table_room { length left.now * length row.old + length row.old ≤ length table.old }
    ensures { Narrows blocks.now left.now result out.new }
{
    let cells = match spell(blocks, pattern) {
        Some(cells) if cells <= left.len() + 1 => cells,
        _ => {
            out.fill(0);
            return Outcome::Dead;
        }
    };
    let pattern = &pattern[..cells];
    mark_finishing(pattern, left, row, table);
    if !row[0] {
        out.fill(0);
        return Outcome::Dead;
    }
    collect(pattern, left, row, table, out);
    Outcome::Narrowed
}
