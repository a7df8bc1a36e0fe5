//! Laws of schedules, and of books that schedules fill. Each function does nothing, and its contract is the law.

ghost use Rattle.propagate.specs.Laws.{SchedulesFillBooks, SchedulesLeadInside};

#[tactic(auto, using(crate::proofs::ScheduleLemmas::schedules_lead_inside))]
/// The facts after a schedule lie inside the least closed facts, and are the least where they are closed: the order and
/// the repeats of its lines don't matter then.
pub fn schedules_lead_inside()
    ensures { SchedulesLeadInside }
{}

#[tactic(auto, using(crate::proofs::ScheduleBookLemmas::schedules_fill))]
/// A schedule that begins with a book leads to facts inside the least closed ones over the book's base, and to the least
/// where no line can draw more: the order and the repeats of its lines don't matter then.
pub fn schedules_fill_books()
    ensures { SchedulesFillBooks }
{}
