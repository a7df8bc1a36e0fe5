//! Whether a section has as many lines as it needs clues.

ghost use Rattle.std.specs.Prelude.{◌≡◌, ◌+◌, ◌<◌, ◌^◌};
ghost use Rattle.non_text.specs.SectionCounts.{with_line};
ghost use Rattle.non_text.specs.Cut.{section_lines};
ghost use Rattle.non_text.specs.Section.{leaves_blanks};

use crate::fault::{NonFault, Read};
use crate::lines::{is_blank_line, next_in_section};

// How many lines there are, how many are not blank, and whether one of these follows the first n lines.
#[derive(Clone, Copy, Default)]
struct Count {
    lines: usize,
    full: usize,
    late: bool,
}

#[tactic(auto, using(crate::proofs::SectionLemmas::counting))]
// Whether the blank lines of a section for n clues are skipped, or else each is an empty clue.
pub(crate) fn leaves_blanks(text: &[u8], n: u8) -> Read<bool>
    ensures { result ≡ leaves_blanks n (section_lines text.now) }
{
    let wanted = usize::from(n);
    let mut count = Count::default();
    let mut rest = text;
    while let Some((line, behind)) = next_in_section(rest) {
        count = with_line(count, line, wanted);
        rest = behind;
    }
    if count.full == wanted {
        Ok(true)
    } else if count.lines >= wanted && !count.late {
        Ok(false)
    } else {
        Err(NonFault::BadCount)
    }
}

// The count with one more line.
fn with_line(count: Count, line: &[u8], n: usize) -> Count
    requires lines_fit { count.lines + 1 < 2 ^ 64 }
    requires full_fit { count.full + 1 < 2 ^ 64 }
    ensures { result ≡ with_line n count line.now }
{
    let full = !is_blank_line(line);
    Count {
        lines: count.lines + 1,
        full: if full { count.full + 1 } else { count.full },
        late: count.late || (full && count.lines >= n),
    }
}
