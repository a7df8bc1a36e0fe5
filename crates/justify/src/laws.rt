//! Laws of the definitions in `specs/`. Each function does nothing, and its contract is the law.

ghost use Rattle.justify.specs.Laws.{
  DerivationsGrow,
  DerivationsStayInside,
  FactsAreWhatIsKnown,
  NewStepsDerive,
  NewStepsFollow,
};

/// What a book's facts exclude is what is in its base or drawn by a step.
pub fn facts_are_what_is_known()
    ensures { FactsAreWhatIsKnown }
{}

#[tactic(auto, using(crate::proofs::LawLemmas::new_follow))]
/// A new step can be added to the book that it was made from, and adds all that the line forces.
pub fn new_steps_follow()
    ensures { NewStepsFollow }
{}

#[tactic(auto, using(crate::proofs::LawLemmas::new_derive))]
/// A new step is forced from its premises alone, and trimmed.
pub fn new_steps_derive()
    ensures { NewStepsDerive }
{}

#[tactic(auto, using(crate::proofs::LawLemmas::derivations_grow))]
/// A derivation with one more forced step is a derivation, and is trimmed where both are.
pub fn derivations_grow()
    ensures { DerivationsGrow }
{}

#[tactic(auto, using(crate::proofs::LawLemmas::stay_inside))]
/// A derivation's facts contain its base, and are contained in all closed facts that contain it.
pub fn derivations_stay_inside()
    ensures { DerivationsStayInside }
{}
