//! The verdict is true.

ghost use Rattle.std.specs.Prelude.{◌≡◌, ℕ, List, true, false, Some, None, Ok, IfOk, IfSome, IsSome, OnErr};
ghost use Rattle.live_audit.specs.Verdict.{IsOtherFor};

use line_facts::LineEngine;
use live_audit::{Bench, Verdict};
use picture::Picture;
use propagate::Agenda;
use std::alloc::AllocError;

/// Whether the present picture is the only one of its size with its clues and its colours in the givens. None only where an
/// allowance is set, and a search was broken off at it. Where memory runs out, all but a counter of work is as it was.
pub fn is_unique<E: LineEngine + Drop, A: Agenda + Drop>(
    bench: &mut Bench<E, A>,
) -> Result<Option<bool>, AllocError>
    ensures unique { result ≡ Ok (Some true) → (other : List (List ℕ))
        → IsOtherFor bench.old.history.document other → ⊥ }
    ensures ambiguous { result ≡ Ok (Some false) → (other : List (List ℕ))
        × IsOtherFor bench.old.history.document other }
    ensures decided { bench.old.allowance ≡ None → IfOk result IsSome }
    ensures same { bench.new.history ≡ bench.old.history }
    ensures memory { OnErr result (bench.new ≡ record bench.old { calls = bench.new.calls }) }
{
    match bench.verdict()? {
        Verdict::Unique => Ok(Some(true)),
        Verdict::Ambiguous(_) => Ok(Some(false)),
        Verdict::Undecided { .. } => Ok(None),
    }
}

/// The other picture that the verdict shows. It is of the same size as the present one, and has the same clues and the same
/// colours in the givens. None where the verdict is another one; without an allowance there is no such picture then.
pub fn other_shown<E: LineEngine + Drop, A: Agenda + Drop>(
    bench: &mut Bench<E, A>,
) -> Result<Option<Picture>, AllocError>
    ensures shown { IfOk result (λ found. IfSome found
        (λ other. IsOtherFor bench.old.history.document other)) }
    ensures none { bench.old.allowance ≡ None → result ≡ Ok None → (other : List (List ℕ))
        → IsOtherFor bench.old.history.document other → ⊥ }
{
    match bench.verdict()? {
        Verdict::Ambiguous(other) => Ok(Some(other.copy()?)),
        Verdict::Unique | Verdict::Undecided { .. } => Ok(None),
    }
}
