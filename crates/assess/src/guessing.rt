//! The figures of a tree.

ghost use Rattle.std.specs.Prelude.{◌≡◌, ◌+◌, ◌≤◌, count_by, length, IfOk};
ghost use Rattle.picture.specs.Rows.{width_of};
ghost use Rattle.assess.specs.Guessing.{HasGuesses, is_split};

use crate::guesses::Guesses;
use crate::nesting::tree_depth;
use cert_text::{Cert, CertLine};
use line_facts::LineEngine;
use picture::Picture;
use std::alloc::{AllocError, Global};

/// The figures of a certificate whose lines are a tree: its splits, and how many of them stand in each other. The depth of lines
/// that are no tree, or of a tree that does not prove the picture, may be any. The engine is called at most once for each line.
pub fn guesses_of<E: LineEngine>(
    alloc: Global,
    engine: &mut E,
    picture: &Picture,
    cert: &Cert,
) -> Result<Guesses, AllocError>
    requires wide { width_of picture.now ≤ E.longest engine.old }
    requires tall { length picture.now ≤ E.longest engine.old }
    ensures guesses { IfOk result (HasGuesses picture.now cert.now) }
    ensures few { E.calls engine.new ≤ E.calls engine.old + length cert.now.lines }
    ensures calls { E.calls engine.old ≤ E.calls engine.new }
    ensures same_longest { E.longest engine.new ≡ E.longest engine.old }
{
    let splits = count_splits(cert.lines());
    let depth = tree_depth(alloc, engine, picture, cert)?;
    Ok(Guesses { splits, depth })
}

// How many lines are splits.
fn count_splits(lines: &[CertLine]) -> u64
    ensures { result ≡ count_by is_split lines.now }
{
    let mut count = 0;
    for line in lines {
        if is_split(*line) {
            count += 1;
        }
    }
    count
}

fn is_split(line: CertLine) -> bool
    ensures { result ≡ is_split line }
{
    matches!(line, CertLine::Split(_))
}
