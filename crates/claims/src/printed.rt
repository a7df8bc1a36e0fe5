//! What is printed passes a check: the pair of `write ppm` and `certify`, and a certificate of `prove`, without and with givens.

ghost use Rattle.std.specs.Prelude.{◌≡◌, ◌⊎◌, true, IfErr, OnOk, codes};
ghost use Rattle.std.specs.Io.KnownBytes.{Appends};
ghost use Rattle.text_check.specs.Check.{accepted_text};
ghost use Rattle.answers.specs.Check.{IsCheckOf, WritesBy};
ghost use Rattle.answers.specs.Prove.{IsProveOf};
ghost use Rattle.claims.specs.Line.{HasLine};
ghost use Rattle.program_options.specs.declared.fault.ProgramFault.TheVariants.{Memory, Write as Unwritten};
ghost use Rattle.claims.specs.Laws.{ArePublished, background_in};

use crate::laws::{
    proofs_are_verified, published_pairs_are_accepted, published_proofs_are_verified,
};
use answers::{ProgramFault, ProveOptions, run_check};
use line_facts::LineEngine;
use live_audit::Bench;
use picture::Rgb;
use propagate::Agenda;
use std::alloc::Global;
use std::io::Write;

/// Checks what `write ppm` and `certify` printed of a bench's document, with that document's background: it is accepted, unless
/// memory runs out or the line cannot be written. The line that is written says so, with the number of the document's givens.
pub fn check_printed<E: LineEngine + Drop, A: Agenda + Drop, W: Write>(
    alloc: Global,
    bench: &Bench<E, A>,
    printed: (&[u8], &[u8]),
    background: Rgb,
    writer: &mut W,
) -> Result<(), ProgramFault>
    requires printed { ArePublished bench.now printed.0.now printed.1.now }
    requires background { background ≡ background_in bench.now.history.document }
    ensures fails { IfErr result (λ e. (e ≡ Memory) ⊎ (e ≡ Unwritten)) }
    ensures writes { WritesBy (W.contents writer.old) (W.contents writer.new) result
        (IsCheckOf printed.entry.0.now (Some background) None printed.entry.1.now) }
    ensures line { OnOk result (HasLine bench.now.history.document
        (W.contents writer.old) (W.contents writer.new)) }
{
    published_pairs_are_accepted(bench);
    run_check(alloc, printed.0, printed.1, None, Some(background), writer)
}

/// Checks a certificate that `prove` printed for a file, in any form, with the same background: it is accepted, with the line
/// for one without givens, unless memory runs out or the line cannot be written.
pub fn verify_printed<W: Write>(
    alloc: Global,
    file: &[u8],
    cert: &[u8],
    options: ProveOptions,
    writer: &mut W,
) -> Result<(), ProgramFault>
    requires { IsProveOf file.now None options (Ok (cert.now, true)) }
    ensures fails { IfErr result (λ e. (e ≡ Memory) ⊎ (e ≡ Unwritten)) }
    ensures writes { WritesBy (W.contents writer.old) (W.contents writer.new) result
        (IsCheckOf file.now options.background None cert.now) }
    ensures line { OnOk result (Appends (W.contents writer.old) (W.contents writer.new)
        (codes "certificate accepted\n")) }
{
    proofs_are_verified();
    run_check(alloc, file, cert, None, options.background, writer)
}

/// Checks a certificate that `prove` printed for a file and a file of published givens, with these and the same background: it
/// is accepted, unless memory runs out or the line cannot be written.
pub fn verify_published<W: Write>(
    alloc: Global,
    file: &[u8],
    cert: &[u8],
    givens: &[u8],
    options: ProveOptions,
    writer: &mut W,
) -> Result<(), ProgramFault>
    requires { IsProveOf file.now (Some givens.now) options (Ok (cert.now, true)) }
    ensures fails { IfErr result (λ e. (e ≡ Memory) ⊎ (e ≡ Unwritten)) }
    ensures writes { WritesBy (W.contents writer.old) (W.contents writer.new) result
        (IsCheckOf file.now options.background (Some givens.now) cert.now) }
    ensures line { OnOk result ((cells : _)
        × Appends (W.contents writer.old) (W.contents writer.new) (accepted_text cells)) }
{
    published_proofs_are_verified();
    run_check(alloc, file, cert, Some(givens), options.background, writer)
}
