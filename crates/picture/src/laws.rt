//! Laws of the definitions in `specs/`. Each function does nothing, and its contract is the law.

ghost use Rattle.picture.specs.Laws.{SameCellsAreEqual, CellsAreMembers, CellsComeBack, SameNamesAreEqual, NamesAreMembers, NamesComeBack, SameContentsAreEqual};

#[tactic(auto, using(crate::proofs::CellSetLaws::laws))]
/// Sets of cells that have the same cells are equal.
pub fn same_cells_are_equal()
    ensures { SameCellsAreEqual }
{}

#[tactic(auto, using(crate::proofs::CellSetLaws::laws))]
/// Each cell is in a set or not, a cell in it lies in the table, and the empty set alone has count 0.
pub fn cells_are_members()
    ensures { CellsAreMembers }
{}

#[tactic(auto, using(crate::proofs::CellSetLaws::laws))]
/// Putting a cell that was absent is undone by taking it out, and the other way round.
pub fn cells_come_back()
    ensures { CellsComeBack }
{}

#[tactic(auto, using(crate::proofs::LineSetLaws::laws))]
/// Sets of names that have the same names are equal.
pub fn same_names_are_equal()
    ensures { SameNamesAreEqual }
{}

#[tactic(auto, using(crate::proofs::LineSetLaws::laws))]
/// Each name is in a set or not, a name in it has a place in the table, and the empty set alone has count 0.
pub fn names_are_members()
    ensures { NamesAreMembers }
{}

#[tactic(auto, using(crate::proofs::LineSetLaws::laws))]
/// Putting a name that was absent is undone by taking it out, and the other way round.
pub fn names_come_back()
    ensures { NamesComeBack }
{}

#[tactic(auto, using(crate::proofs::DocumentLaws::same_contents))]
/// Documents that have the same colours, cells and givens are equal.
pub fn same_contents_are_equal()
    ensures { SameContentsAreEqual }
{}
