//! Laws of the definitions in `specs/`. Each function does nothing, and its contract is the law.

ghost use Rattle.second_search.specs.Costs.{CostsAreThere, CostsDecide};
ghost use Rattle.second_search.specs.Laws.{AllowancesBreakOff, EndingsAreTrue, FillingsAreOfFacts, FillingsStay, PartsAreApart, PartsAreOneList, PartsDecide, SoundFacts, TreesAreWhole};
ghost use Rattle.second_search.specs.FixedOrder.{CostsAreUnique};

#[tactic(auto, using(crate::proofs::KnownLaws::sound_facts))]
/// Facts that exclude nothing are sound where there is no given, and so is the base of any givens; facts stay sound
/// with one more given, and when they are closed.
pub fn sound_facts()
    ensures { SoundFacts }
{}

/// All parts of facts, in the order of their first cells, are one list.
pub fn parts_are_one_list()
    ensures { PartsAreOneList }
{}

#[tactic(auto, using(crate::proofs::PartLemmas::apart))]
/// Two parts that share a cell are the same, and a part has all open cells of each line through one of its cells. Its
/// cells are open and lie in the picture; in a cell of the picture that is not open only the picture's colour is left.
pub fn parts_are_apart()
    ensures { PartsAreApart }
{}

#[tactic(auto, using(crate::proofs::KnownLaws::parts_decide))]
/// Another picture exists exactly where some part has another filling: the other picture's colours on a part where it
/// differs, with the picture's elsewhere, are another filling of that part.
pub fn parts_decide()
    ensures { PartsDecide }
{}

/// The other fillings of a part are the other pictures that fill the facts on it, with the picture's colours elsewhere.
pub fn fillings_are_of_facts()
    ensures { FillingsAreOfFacts }
{}

#[tactic(auto, using(crate::proofs::KnownLaws::fillings_stay))]
/// A part whose lines are the same in two scenes is a part in both, and has another filling in the one exactly where it
/// has one in the other. Its colours on the part are the same; elsewhere it has those of the scene's picture.
pub fn fillings_stay()
    ensures { FillingsStay }
{}

/// There is at most one number of splits after which the search of facts in the fixed order ends: their cost.
pub fn costs_are_unique()
    ensures { CostsAreUnique }
{}

#[tactic(auto, using(crate::proofs::CostLemmas::costs_are_there))]
/// The search of facts in the fixed order ends, so that each part of a scene has a cost.
pub fn costs_are_there()
    ensures { CostsAreThere }
{}

#[tactic(auto, using(crate::proofs::CostLemmas::costs_decide))]
/// Under an allowance a picture is left undecided exactly where a part costs more: the first such part is the one at which its
/// search is broken off.
pub fn costs_decide()
    ensures { CostsDecide }
{}

#[tactic(auto, using(crate::proofs::KnownLaws::allowances_break_off))]
/// A picture is left undecided only where an allowance is set.
pub fn allowances_break_off()
    ensures { AllowancesBreakOff }
{}

/// What `decide_within` answers for a part is true whatever the bounds are: no other filling exists, or this is one.
pub fn endings_are_true()
    ensures { EndingsAreTrue }
{}

/// Where `climb` answers with a tree, and the known picture has the facts' size, nothing but it fills the facts.
pub fn trees_are_whole()
    ensures { TreesAreWhole }
{}
