//! The names of all lines of some facts, with which a worklist begins.

ghost use Rattle.std.specs.Prelude.{◌≡◌, ◌+◌, ◌<◌, ◌≤◌, length};
ghost use Rattle.picture.specs.LineSet.{HasName, name_count};
ghost use Rattle.picture.specs.Rows.{width_of};
ghost use Rattle.fixpoint.specs.LineNames.{AllLines, PutsFirst};

use line_facts::Facts;
use picture::{Axis, LineId, LineSet, MAX_SIDE};

#[tactic(auto, using(crate::proofs::NameLaws::all_names))]
/// The names of all lines of the facts: the rows and the columns. Allocates no memory.
pub fn all_lines(facts: &Facts) -> LineSet
    ensures lines { AllLines facts.now result }
    ensures count { name_count result ≡ length facts.now + width_of facts.now }
{
    let mut lines = LineSet::empty();
    put_first(&mut lines, Axis::Across, facts.height());
    put_first(&mut lines, Axis::Down, facts.width());
    lines
}

// Puts the names of the first `count` lines along an axis into a set.
fn put_first(lines: &mut LineSet, axis: Axis, count: u8)
    requires { count ≤ MAX_SIDE }
    ensures { PutsFirst lines.old lines.new axis count }
{
    for at in 0..count {
        lines.put(LineId { axis, at });
    }
}
