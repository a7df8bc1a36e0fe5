//! Laws of runs of line logic. Each function does nothing, and its contract is the law.

ghost use Rattle.grade.specs.Laws.{PicturesFillStarts, RunsAreOne, RunsSettle, StartsSuffice};

/// A run ends with the least closed facts that hold those at its start, where some picture has the clues and, in each cell, a
/// colour that is left at the start.
pub fn runs_settle()
    ensures { RunsSettle }
{}

/// Two runs from one start make the same looks and end with the same facts: figures and path depend on the clues and the
/// facts at the start alone.
pub fn runs_are_one()
    ensures { RunsAreOne }
{}

/// The least closed facts that hold the start of a picture's puzzle are the least that hold what the givens alone exclude.
pub fn starts_suffice()
    ensures { StartsSuffice }
{}

/// A picture has in each cell a colour that is left at the start of its puzzle.
pub fn pictures_fill_starts()
    ensures { PicturesFillStarts }
{}
