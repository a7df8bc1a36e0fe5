//! Laws of the definitions in `specs/`. Each function does nothing, and its contract is the law.

ghost use Rattle.line_facts.specs.Laws.{
  BaseIsCellByCell,
  CountsAdd,
  FittingListStays,
  ForcingClosesALine,
  ForcingIsMonotone,
  LeastIsUnique,
  NarrowingTwiceIsOnce,
  OneLineDecides,
};

/// With fewer colours left, no more lists fit a line, and it forces no less.
pub fn forcing_is_monotone()
    ensures { ForcingIsMonotone }
{}

/// Forcing a line adds exclusions, stays inside all closed facts that hold the old ones, and leaves the line closed.
pub fn forcing_closes_a_line()
    ensures { ForcingClosesALine }
{}

/// Narrowing what was narrowed changes nothing.
pub fn narrowing_twice_is_once()
    ensures { NarrowingTwiceIsOnce }
{}

/// A list of colours that fits a line is never excluded.
pub fn fitting_list_stays()
    ensures { FittingListStays }
{}

/// What a line forces depends on its own masks and its clue alone.
pub fn one_line_decides()
    ensures { OneLineDecides }
{}

/// The base of givens leaves only the picture's colour in each given and all sixteen elsewhere, so there is only one
/// base; one more given changes only its own cell.
pub fn base_is_cell_by_cell()
    ensures { BaseIsCellByCell }
{}

/// There is one least closed set of facts that holds a base.
pub fn least_is_unique()
    ensures { LeastIsUnique }
{}

/// Work that is done in two parts is counted as one.
pub fn counts_add()
    ensures { CountsAdd }
{}
