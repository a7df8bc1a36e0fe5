//! Laws of the desk, over any list of calls. Each function does nothing, and its contract is the law.

ghost use Rattle.web.specs.Laws.{ClosedStayClosed, DesksStayOrderly, OthersStay};

#[tactic(auto, using(crate::proofs::DeskLemmas::orderly))]
/// The handles of the open benches differ and are at most the one given last: on a new desk, and after any list of calls.
pub fn desks_stay_orderly()
    ensures { DesksStayOrderly }
{}

#[tactic(auto, using(crate::proofs::DeskLemmas::closed))]
/// A handle that was closed stays refused, after any list of calls.
pub fn closed_stay_closed()
    ensures { ClosedStayClosed }
{}

#[tactic(auto, using(crate::proofs::DeskLemmas::others))]
/// A call on one bench leaves all others as they are.
pub fn others_stay()
    ensures { OthersStay }
{}
