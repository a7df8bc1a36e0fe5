//! Line solving on the facts at hand of a board, which records each change.

ghost use Rattle.std.specs.Prelude.{◌≡◌, ◌≤◌, ◌+◌, ◌↔◌, ℕ, length, slice_index, take, IsBitSet, IsTrue};
ghost use Rattle.picture.specs.LineSet.{HasName};
ghost use Rattle.picture.specs.Rows.{HasLine, line_of};
ghost use Rattle.line_facts.specs.Counts.{counted};
ghost use Rattle.line_facts.specs.FactSets.{HoldsLine};
ghost use Rattle.line_facts.specs.Fits.{CanFit};
ghost use Rattle.cert_check.specs.Boards.{IsTallied};
ghost use Rattle.cert_check.specs.Puzzle.{IsForced};
ghost use Rattle.cert_check.specs.Walk.{CanCheck};

use crate::board::Board;
use crate::claim::Claim;
use clues::Clue;
use line_facts::{Facts, LineEngine, Outcome};
use picture::{LineId, MAX_SIDE, Picture};

// The most cells of a line.
const MOST_CELLS: usize = MAX_SIDE as usize;

// The colours left in each cell of a line, from the left or from the top. What follows them means nothing.
fn cells_of(facts: &Facts, line: LineId) -> [u16; MOST_CELLS]
    requires { HasLine facts.now line }
    ensures { take (length (line_of facts.now line)) result ≡ line_of facts.now line }
{
    let mut left = [0; MOST_CELLS];
    let cells = usize::from(facts.line_len(line));
    facts.copy_line(line, &mut left[..cells]);
    left
}

// Whether no list of colours fits a line, in one call of the engine.
pub(crate) fn is_dead<E: LineEngine>(
    engine: &mut E,
    facts: &Facts,
    clue: &Clue,
    line: LineId,
) -> bool
    requires line { HasLine facts.now line }
    requires short { length (line_of facts.now line) ≤ E.longest engine.old }
    ensures dead { IsTrue result ↔ (CanFit clue.now (line_of facts.now line) → ⊥) }
    ensures same_longest { E.longest engine.new ≡ E.longest engine.old }
    ensures called { E.calls engine.new ≡ counted (E.calls engine.old) 1 }
{
    let cells = usize::from(facts.line_len(line));
    let left = cells_of(facts, line);
    let mut out = [0; MOST_CELLS];
    let mut count = 0;
    engine.narrow(&mut count, clue, &left[..cells], &mut out[..cells]) == Outcome::Dead
}

#[tactic(auto, using(line_facts::proofs::AlongLaws::places))]
// Sets the candidates of a line's cells in the facts at hand, where they differ from those that are left.
fn hold_line(board: &mut Board, picture: &Picture, line: LineId, left: &[u16], masks: &[u16])
    requires line { HasLine board.old.at_hand line }
    requires left { left.now ≡ line_of board.old.at_hand line }
    requires whole { length masks.now ≡ length (line_of board.old.at_hand line) }
    requires fits { length masks.now ≤ MAX_SIDE }
    requires among { (i k : ℕ) → IsBitSet (slice_index masks.now i) k
        → IsBitSet (slice_index (line_of board.old.at_hand line) i) k }
    requires tallied { IsTallied picture.now board.old }
    requires unsettled { ¬ HasName board.old.settled line }
    ensures holds { HoldsLine line board.old.at_hand board.new.at_hand masks.now }
    ensures behind { board.new.behind ≡ board.old.behind }
    ensures tallied { IsTallied picture.now board.new }
    ensures parts { board.new.parts ≡ board.old.parts }
{
    let _ = board.at_hand().height();
    for i in 0..masks.len() {
        if masks[i] != left[i] {
            board.hold_on(picture, line, i as u8, masks[i]);
        }
    }
}

// Adds to the facts at hand all that a line's clue forces, in one call of the engine, or in none where the line is settled.
pub(crate) fn force<E: LineEngine>(engine: &mut E, board: &mut Board, claim: &Claim, line: LineId)
    requires can { CanCheck claim.now.picture.now claim.now.clues.now (E.longest engine.old) }
    requires tallied { IsTallied claim.now.picture.now board.old }
    requires line { HasLine board.old.at_hand line }
    ensures forced { IsForced claim.now.picture.now board.old.at_hand line board.new.at_hand }
    ensures behind { board.new.behind ≡ board.old.behind }
    ensures tallied { IsTallied claim.now.picture.now board.new }
    ensures parts { board.new.parts ≡ board.old.parts }
    ensures same_longest { E.longest engine.new ≡ E.longest engine.old }
    ensures calls { E.calls engine.old ≤ E.calls engine.new }
    ensures work { E.calls engine.new ≤ E.calls engine.old + 1 }
    ensures noted { HasName board.new.settled line }
    ensures again { HasName board.old.settled line → E.calls engine.new ≡ E.calls engine.old }
{
    let _ = engine.calls();
    let _ = board.at_hand().height();
    if board.is_settled(line) {
        return;
    }
    let facts = board.at_hand();
    let cells = usize::from(facts.line_len(line));
    let left = cells_of(facts, line);
    let mut masks = [0; MOST_CELLS];
    let (left, masks) = (&left[..cells], &mut masks[..cells]);
    let mut count = 0;
    let _outcome = engine.narrow(&mut count, claim.clues.clue(line), left, masks);
    hold_line(board, claim.picture, line, left, masks);
    board.settle(claim.picture, line);
}
