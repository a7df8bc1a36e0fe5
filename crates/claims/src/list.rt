//! After any calls, the clues, the map and the verdict of a bench are those of its present picture.

ghost use Rattle.std.specs.Prelude.{◌≡◌, ℕ, List, true, false, Some, Ok, OnOk};
ghost use Rattle.clues.specs.ClueBook.{clues_of};
ghost use Rattle.edits.specs.Edit.{edited};
ghost use Rattle.live_audit.specs.Audit.{AreGivens};
ghost use Rattle.line_facts.specs.FactSets.{IsLeast};
ghost use Rattle.live_audit.specs.Verdict.{IsOtherFor};

use crate::stroke::{Step, step_or_keep};
use crate::verdict::is_unique;
use edits::{Edit, EditFault};
use line_facts::LineEngine;
use live_audit::{Bench, MAX_ALLOWANCE};
use propagate::Agenda;
use std::alloc::AllocError;

/// A call that changes a bench, or what it knows of its picture.
#[derive(Drop)]
pub enum Call {
    Step(Step),
    Allow(Option<u32>),
    Verdict,
    Certify,
}

/// Makes two edits. Where both are accepted, the document is the old one with both edits.
pub fn edit_twice<E: LineEngine + Drop, A: Agenda + Drop>(
    bench: &mut Bench<E, A>,
    first: &Edit,
    second: &Edit,
) -> Result<(), EditFault>
    ensures { OnOk result (bench.new.history.document
        ≡ edited (edited bench.old.history.document first.now) second.now) }
{
    bench.apply(first)?;
    bench.apply(second)
}

/// Makes an edit and takes it back. Where both are accepted, the document is the one before.
pub fn edit_and_undo<E: LineEngine + Drop, A: Agenda + Drop>(
    bench: &mut Bench<E, A>,
    edit: &Edit,
) -> Result<(), EditFault>
    ensures { OnOk result (bench.new.history.document ≡ bench.old.history.document) }
{
    let _ = bench.past_len();
    bench.apply(edit)?;
    bench.undo()
}

/// Makes calls one after the other, also after a refused one. After any list of them the clues are those of the present
/// picture, and the map is the least one closed under line deductions that excludes what its givens exclude.
pub fn call_all<E: LineEngine + Drop, A: Agenda + Drop>(bench: &mut Bench<E, A>, calls: &[Call])
    ensures clues { bench.new.clues ≡ clues_of bench.new.history.document.rows }
    ensures givens { AreGivens bench.new.history.document bench.new.book.base }
    ensures map { IsLeast bench.new.clues bench.new.book.base bench.new.book.facts }
{
    for call in calls {
        make_call(bench, call);
    }
    let _ = bench.map();
}

// Makes one call, with the largest allowance in place of a larger one. Where it is refused, the bench is as before.
fn make_call<E: LineEngine + Drop, A: Agenda + Drop>(bench: &mut Bench<E, A>, call: &Call) {
    match call {
        Call::Step(step) => {
            let _ = step_or_keep(bench, step);
        }
        Call::Allow(allowance) => bench.allow(allowance.map(|splits| splits.min(MAX_ALLOWANCE))),
        Call::Verdict => {
            let _ = is_unique(bench);
        }
        Call::Certify => {
            let _ = bench.certify();
        }
    }
}

/// Makes calls as `call_all` does, and asks for the verdict, which is that of the picture after them.
pub fn verdict_after<E: LineEngine + Drop, A: Agenda + Drop>(
    bench: &mut Bench<E, A>,
    calls: &[Call],
) -> Result<Option<bool>, AllocError>
    ensures unique { result ≡ Ok (Some true) → (other : List (List ℕ))
        → IsOtherFor bench.new.history.document other → ⊥ }
    ensures ambiguous { result ≡ Ok (Some false) → (other : List (List ℕ))
        × IsOtherFor bench.new.history.document other }
{
    call_all(bench, calls);
    is_unique(bench)
}
