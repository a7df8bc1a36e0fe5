//! Open cells: those in which more than one colour is left.

ghost use Rattle.std.specs.Prelude.{◌≡◌, ◌<◌, ◌↔◌, ℕ, length, IsBitSet, IsTrue, MatchOption};
ghost use Rattle.picture.specs.Rows.{width_of};
ghost use Rattle.second_search.specs.GrownParts.{HasNoOpenCell, IsFirstOpen};
ghost use Rattle.second_search.specs.Parts.{IsOpenCell};

use line_facts::Facts;
use trail::Cell;

// The first open cell of a row.
pub(crate) fn first_open(facts: &Facts, row: u8) -> Option<Cell>
    requires { row < length facts.now }
    ensures { MatchOption
        result
        (HasNoOpenCell facts.now row)
        (λ cell. (cell.row ≡ row) × IsFirstOpen facts.now row cell.col) }
{
    for col in 0..facts.width() {
        let cell = Cell { row, col };
        if is_open(facts, cell) {
            return Some(cell);
        }
    }
    None
}

// Whether more than one colour is left in a cell.
pub(crate) fn is_open(facts: &Facts, cell: Cell) -> bool
    requires in_rows { cell.row < length facts.now }
    requires in_columns { cell.col < width_of facts.now }
    ensures { IsTrue result ↔ IsOpenCell facts.now cell.row cell.col }
{
    has_two_colours(facts.left(cell.row, cell.col))
}

#[tactic(auto, using(crate::proofs::ChainLemmas::tests_two))]
// Whether a mask has more than one colour.
fn has_two_colours(mask: u16) -> bool
    ensures { IsTrue result
        ↔ ((j : ℕ) × (k : ℕ) × IsBitSet mask j × IsBitSet mask k × (j ≡ k → ⊥)) }
{
    if mask == 0 {
        return false;
    }
    let lowest = 1 << mask.trailing_zeros();
    mask & !lowest != 0
}
