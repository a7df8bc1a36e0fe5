//! The two directions in which a line is read along a pattern.

ghost use Rattle.std.specs.Prelude.{◌≡◌, ℕ, List, Bool};
ghost use Rattle.line_settle.specs.Directions.{End, step_from};
ghost use Rattle.line_settle.specs.Directions.End.{Front, Back};
ghost use Rattle.line_settle.specs.StateSets.{AreStates, MovesBy, moves_of};

use crate::state_sets::Moves;
use crate::word::Word;

/// A direction in which a line is read along a pattern, cell by cell.
pub trait Direction {
    ghost end: { End };

    /// The states to which a cell leads a line from those of a set.
    fn pass<W: Word>(moves: Moves<W>, from: W) -> W
        ensures { (pattern : List ℕ) (mask : ℕ) (test : ℕ → Bool)
            → MovesBy W.width pattern mask (moves_of W.bits moves)
            → AreStates pattern test (W.bits from)
            → AreStates pattern (step_from end pattern mask test) (W.bits result) };
}

/// From the first cell to the last: each cell leads from the states before it to those after it.
pub struct FromFront;

/// From the last cell to the first: each cell leads from the states after it to those from which it leads there.
pub struct FromBack;

impl Direction for FromFront {
    ghost end = { Front };

    #[inline]
    fn pass<W: Word>(moves: Moves<W>, from: W) -> W {
        from.and(moves.advancing).up(1).or(from.and(moves.resting))
    }
}

impl Direction for FromBack {
    ghost end = { Back };

    #[inline]
    fn pass<W: Word>(moves: Moves<W>, from: W) -> W {
        from.down(1)
            .and(moves.advancing)
            .or(from.and(moves.resting))
    }
}
