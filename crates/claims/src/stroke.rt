//! A refused edit leaves the bench as it was.

ghost use Rattle.std.specs.Prelude.{◌≡◌, IfErr, OnErr, OnOk, unwrap_or};
ghost use Rattle.claims.specs.Step.{stroke_of};
ghost use Rattle.edits.specs.declared.fault.EditFault.TheVariants.{Memory};
ghost use Rattle.live_audit.specs.Stroke.{after_stroke, stroke_fault};

use edits::{Edit, EditFault};
use line_facts::LineEngine;
use live_audit::Bench;
use propagate::Agenda;

/// A stroke: an edit, an undo or a redo.
#[derive(Drop)]
pub enum Step {
    Edit(Edit),
    Undo,
    Redo,
}

#[tactic(auto, using(crate::proofs::StepLemmas::as_before))]
/// Makes a step. Where it is accepted, the history is that after the step. Where it is refused, the answer is its first error, or
/// that memory ran out; and all but a counter of work is as it was: the history with the document, the clues and the map. The
/// counter is as it was too, unless memory ran out.
pub fn step_or_keep<E: LineEngine + Drop, A: Agenda + Drop>(
    bench: &mut Bench<E, A>,
    step: &Step,
) -> Result<(), EditFault>
    ensures accepted { OnOk result
        (bench.new.history ≡ after_stroke bench.old.history (stroke_of step.now)) }
    ensures first { IfErr result
        (λ fault. fault ≡ unwrap_or (stroke_fault bench.old.history (stroke_of step.now)) Memory) }
    ensures history { OnErr result (bench.new.history ≡ bench.old.history) }
    ensures clues { OnErr result (bench.new.clues ≡ bench.old.clues) }
    ensures map { OnErr result (bench.new.book.facts ≡ bench.old.book.facts) }
    ensures all { OnErr result (bench.new ≡ record bench.old { calls = bench.new.calls }) }
    ensures unless_memory { IfErr result
        (λ fault. (fault ≡ Memory → ⊥) → bench.new ≡ bench.old) }
{
    match step {
        Step::Edit(edit) => bench.apply(edit),
        Step::Undo => bench.undo(),
        Step::Redo => bench.redo(),
    }
}
