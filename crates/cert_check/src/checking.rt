//! The checker of certificates.

ghost use Rattle.std.specs.Prelude.{◌≡◌, ◌≤◌, ◌<◌, ◌+◌, ◌^◌, length, IfErr, OnOk, Some};
ghost use Rattle.std.specs.List.{AllByRecursion};
ghost use Rattle.picture.specs.Rows.{width_of};
ghost use Rattle.cert_text.specs.Cert.{IsOfTree, place_of};
ghost use Rattle.cert_check.specs.FirstFault.{Answers, AnswersFirst, CertFirstFault, FirstFault};
ghost use Rattle.cert_check.specs.LemmaProof.{IsLemmaProof};
ghost use Rattle.cert_check.specs.Machined.{AffordsAll, IsRight};
ghost use Rattle.cert_check.specs.Puzzle.{HasCellNumber, IsUnique};
ghost use Rattle.cert_check.specs.Tree.{IsProof};
ghost use Rattle.cert_check.specs.Walk.{CanCheck};

use crate::checker::Checker;
use crate::claim::Claim;
use crate::machine::Machine;
use crate::moving::moved;
use cert_text::{Cert, CertFault};
use line_facts::LineEngine;
use picture::Picture;
use std::alloc::Global;

// Takes the lines from where the machine stands on, and answers the first error.
pub(crate) fn walk<E: LineEngine>(
    machine: &mut Machine,
    engine: &mut E,
    claim: &Claim,
    cert: &Cert,
) -> Result<(), CertFault>
    requires can { CanCheck claim.now.picture.now claim.now.clues.now (E.longest engine.old) }
    requires right { IsRight claim.now.picture.now machine.old }
    requires affords { AffordsAll machine.old cert.now.lines }
    ensures first { Answers (FirstFault claim.now.picture.now (Some machine.old.walk)
        (place_of cert.now.runs (2 + length cert.now.givens)) 0 cert.now.lines) result }
    ensures work { E.calls engine.new ≤ E.calls engine.old + length cert.now.lines }
    ensures calls { E.calls engine.old ≤ E.calls engine.new }
    ensures same_longest { E.longest engine.new ≡ E.longest engine.old }
{
    let lines = cert.lines();
    let mut going = true;
    for i in 0..lines.len() {
        if !going {
            return Err(CertFault::Trailing(cert.place_of(i)));
        }
        going = match machine.step(engine, claim, lines[i], i) {
            Ok(going) => going,
            Err(fault) => return Err(moved(fault, cert.place_of(i))),
        };
    }
    if going {
        return Err(CertFault::Ended(cert.place_of(lines.len())));
    }
    Ok(())
}

#[tactic(auto, using(crate::proofs::Answering::answering))]
/// Checks a certificate of a picture: whether it proves that no other picture of that size has its clues and, in the
/// certificate's givens, its colours.
/// No line of the picture may be longer than the engine takes.
///
/// The answer is Ok exactly where the givens lie in the picture and the lines prove it: those of a tree as `IsProof` says it,
/// others as `IsLemmaProof` does. Otherwise it is the first error from the top with its line, or `Memory` where an allocation
/// is refused. How much memory is taken is not promised. The engine is called at most once for each line of the certificate,
/// and not at all where a given lies outside the picture.
pub fn check_cert<E: LineEngine>(
    alloc: Global,
    engine: &mut E,
    picture: &Picture,
    cert: &Cert,
) -> Result<(), CertFault>
    requires wide { width_of picture.now ≤ E.longest engine.old }
    requires tall { length picture.now ≤ E.longest engine.old }
    ensures first { AnswersFirst (CertFirstFault picture.now cert.now) result }
    ensures proof { OnOk result (IsLemmaProof picture.now cert.now) }
    ensures tree { OnOk result (AllByRecursion IsOfTree cert.now.lines
        → IsProof picture.now cert.now) }
    ensures only { IsLemmaProof picture.now cert.now → IfErr result (λ e. e ≡ CertFault.Memory) }
    ensures only_tree { IsProof picture.now cert.now → IfErr result (λ e. e ≡ CertFault.Memory) }
    ensures unique { OnOk result (IsUnique picture.now cert.now.givens) }
    ensures work { E.calls engine.new ≤ E.calls engine.old + length cert.now.lines }
    ensures idle { (AllByRecursion (HasCellNumber picture.now) cert.now.givens → ⊥)
        → E.calls engine.new ≡ E.calls engine.old }
    ensures calls { E.calls engine.old ≤ E.calls engine.new }
    ensures same_longest { E.longest engine.new ≡ E.longest engine.old }
{
    let _ = picture.height();
    let checker = Checker::make(alloc, picture, cert)?;
    checker.check(engine, cert)
}
