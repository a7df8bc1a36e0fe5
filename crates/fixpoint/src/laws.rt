//! Laws of the least closed facts, and of pictures that facts allow. Each function does nothing, and its contract is the law.

ghost use Rattle.fixpoint.specs.Laws.{AllNamesAreCounted, ClosingKeepsFillings, OnlyIsClosed, PictureStays};

#[tactic(auto, using(crate::proofs::NameLaws::all_names))]
/// A set with the names of all lines of facts has one for each row and each column.
pub fn all_names_are_counted()
    ensures { AllNamesAreCounted }
{}

#[tactic(auto, using(crate::proofs::PictureLemmas::laws))]
/// Where the base leaves the colours of a picture that has the clues, line logic never excludes them.
pub fn picture_stays()
    ensures { PictureStays }
{}

#[tactic(auto, using(crate::proofs::PictureLemmas::laws))]
/// The facts that leave only the colours of a picture are closed for its clues.
pub fn only_is_closed()
    ensures { OnlyIsClosed }
{}

#[tactic(auto, using(crate::proofs::PictureLemmas::laws))]
/// Before and after `close_facts`, the facts allow the same pictures that have the clues, and where it answers Dead
/// there is none. The same holds of the least closed facts.
pub fn closing_keeps_fillings()
    ensures { ClosingKeepsFillings }
{}
