//! How many lines are evaluated for a stroke, and for a verdict under an allowance.

ghost use Rattle.std.specs.Prelude.{◌≡◌, ◌≤◌, ℕ, Some, IfOk};
ghost use Rattle.claims.specs.Step.{stroke_of};
ghost use Rattle.claims.specs.Work.{most_evaluations};
ghost use Rattle.live_audit.specs.Laws.{EvaluatesFew};
ghost use Rattle.live_audit.specs.Stroke.{stroke_moves};

use crate::stroke::Step;
use edits::EditFault;
use line_facts::LineEngine;
use live_audit::Bench;
use live_audit::laws::strokes_evaluate_few;
use propagate::Agenda;
use std::alloc::AllocError;

/// Makes a step, and returns how many lines were evaluated: at most one per dirty line and per cell each new step narrows.
pub fn evaluations_of<E: LineEngine + Drop, A: Agenda + Drop>(
    bench: &mut Bench<E, A>,
    step: &Step,
) -> Result<u64, EditFault>
    ensures few { IfOk result (λ _.
        EvaluatesFew (stroke_moves bench.old.history (stroke_of step.now)) bench.old bench.new) }
    ensures count { IfOk result (λ count. count ≡ bench.new.work.edit.evaluations) }
{
    strokes_evaluate_few();
    match step {
        Step::Edit(edit) => bench.apply(edit)?,
        Step::Undo => bench.undo()?,
        Step::Redo => bench.redo()?,
    }
    Ok(bench.work().edit.evaluations)
}

/// Asks for the verdict, and returns how many lines were evaluated: under an allowance, at most what it allows for all parts.
pub fn evaluations_of_verdict<E: LineEngine + Drop, A: Agenda + Drop>(
    bench: &mut Bench<E, A>,
) -> Result<u64, AllocError>
    ensures { (splits : ℕ) → bench.old.allowance ≡ Some splits
        → IfOk result (λ count. count ≤ most_evaluations bench.old splits) }
{
    let _ = bench.verdict()?;
    Ok(bench.work().search.evaluations)
}
