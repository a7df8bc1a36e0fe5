//! Laws of clues: what a clue is, without the function that computes it.

ghost use Rattle.claims.specs.Placement.{CluesCanBePlaced};
ghost use Rattle.claims.specs.MaximalRuns.{CluesAreMaximalRuns};

#[tactic(auto, using(crate::proofs::MaximalRunLemmas::maximal_runs))]
/// A list of blocks is the clue of a line exactly if it names the line's maximal runs. The line begins with background, if any;
/// then come the cells of the first block, and then a rest that does not begin with its colour and has the other blocks. Without
/// blocks all is background.
pub fn clues_are_maximal_runs()
    ensures { CluesAreMaximalRuns }
{}

/// A list of blocks is the clue of a line exactly if the blocks can be placed on it: in order, each over cells of its colour
/// alone. Between two of the same colour there is a cell, and only background is left.
pub fn clues_can_be_placed()
    ensures { CluesCanBePlaced }
{}
