//! A law of closed lines. Its proof uses the tables of the plain engine, which decide what a line can have. The function
//! does nothing, and its contract is the law.

ghost use Rattle.line_settle.specs.ClosedLines.{ClosedLinesHoldWhatTheyForce};

/// A line is closed exactly when the facts have each exclusion that it forces.
pub fn closed_lines_hold_what_they_force()
    ensures { ClosedLinesHoldWhatTheyForce }
{}
