//! A law of documents that are seen cell by cell. The function does nothing, and its contract is the law.

ghost use Rattle.edits.specs.Laws.{MarksAreGivens};

#[tactic(auto, using(crate::proofs::DesignLemmas::all_marked))]
/// Where a document's givens lie in its picture, as they do in each document, exactly the givens are marked.
pub fn marks_are_givens()
    ensures { MarksAreGivens }
{}
