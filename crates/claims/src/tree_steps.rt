//! A law of certificates: a tree that is told step by step is a proof with lemmas.

ghost use Rattle.claims.specs.Told.{ToldTreesAreProofs, TreesCanBeTold};

#[tactic(auto, using(crate::proofs::ToldLemmas::trees_can_be_told, crate::proofs::ToldProofLemmas::told_trees_are_proofs))]
/// Each certificate that proves a picture by a tree can be told step by step in each form with lemmas, with the same givens. A split
/// of n colours is n - 1 times `part`, one of no colour its cell's dead row, and all else stays as it is. Whatever tells it so is a
/// proof with lemmas of the same picture, in which no lemma stands, and can be written.
pub fn trees_are_told_step_by_step()
    ensures there { TreesCanBeTold }
    ensures proofs { ToldTreesAreProofs }
{}
