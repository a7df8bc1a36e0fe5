//! What runs of the program print, another run accepts.

ghost use Rattle.std.specs.Process.{exit_status};
ghost use Rattle.claims.specs.ByWords.{CompleteRunsDecide, GivenProofsByWords, PairsByWords, ProofsByWords};
ghost use Rattle.claims.specs.Runs.{IsRun, PairsAreAccepted, ProofsAreAccepted, asked_of};

use crate::laws::{
    one_file_is_one_document, proofs_are_verified, published_proofs_are_verified,
    started_prints_are_accepted,
};
use command_line::laws::words_are_known;
use program::{Files, run};
use std::alloc::Global;
use std::process::ExitCode;

/// A run of the program: its arguments, and the files that it is passed.
#[derive(Drop)]
pub struct Run<F: Files> {
    pub arguments: Vec<String>,
    pub files: F,
}

/// What a run wrote, and its exit status.
#[derive(Drop)]
pub struct Printed {
    pub text: Vec<u8>,
    pub code: ExitCode,
}

/// The whole program with this input, over any files: what it writes, and its exit status.
pub fn run_with<F: Files + Drop>(alloc: Global, asked: Run<F>, input: &[u8]) -> Printed
    ensures { IsRun (asked_of asked.arguments.items
        (F.held asked.files) (F.opened asked.files) (F.faults asked.files))
        input.now result.text.items (exit_status result.code) }
{
    let Run {
        arguments,
        mut files,
    } = asked;
    let mut left = input;
    let mut text = Vec::new(alloc);
    let mut errors = Vec::new(alloc);
    let ended = run(
        alloc,
        Ok(arguments),
        &mut files,
        &mut left,
        &mut text,
        &mut errors,
    );
    Printed {
        text,
        code: ended.code,
    }
}

/// Three runs: `write ppm` and `certify` as the inputs of two sessions on one P3 file, and a check. Where the check is asked of
/// two files that hold what the sessions wrote, with the document's background, it accepts. It may not where `certify` wrote
/// `ambiguous`, memory runs out, a read or a write fails, or one of the files is longer than 16 MiB. By the clause `words` this
/// holds for `work A` twice and `check --background C P Q`, where no name begins with a hyphen and C names the background.
pub fn run_prints_what_run_accepts<F: Files + Drop>(
    alloc: Global,
    writing: Run<F>,
    certifying: Run<F>,
    checking: Run<F>,
) -> (Printed, Printed, Printed)
    ensures asked { PairsAreAccepted
        (asked_of writing.arguments.items
        (F.held writing.files) (F.opened writing.files) (F.faults writing.files))
        (asked_of certifying.arguments.items
        (F.held certifying.files) (F.opened certifying.files) (F.faults certifying.files))
        (asked_of checking.arguments.items
        (F.held checking.files) (F.opened checking.files) (F.faults checking.files))
        result.0.text.items result.1.text.items result.2.text.items
        (exit_status result.0.code) (exit_status result.1.code) (exit_status result.2.code) }
    ensures words { PairsByWords
        (asked_of writing.arguments.items
        (F.held writing.files) (F.opened writing.files) (F.faults writing.files))
        (asked_of certifying.arguments.items
        (F.held certifying.files) (F.opened certifying.files) (F.faults certifying.files))
        (asked_of checking.arguments.items
        (F.held checking.files) (F.opened checking.files) (F.faults checking.files))
        result.0.text.items result.1.text.items result.2.text.items
        (exit_status result.0.code) (exit_status result.1.code) (exit_status result.2.code) }
{
    words_are_known();
    started_prints_are_accepted();
    one_file_is_one_document();
    let picture = run_with(alloc, writing, b"write ppm\n");
    let cert = run_with(alloc, certifying, b"certify\n");
    let check = run_with(alloc, checking, b"");
    (picture, cert, check)
}

/// Two runs: `prove` makes a certificate for a P3 file, in any form, and ends with status 0, and `check` checks it. The second is
/// asked of files that hold the picture and what the first wrote, with the same background. It accepts, unless memory runs out, a
/// read or a write fails, or one of the files is longer than 16 MiB. By the clause `words` this holds for `prove A`, also with
/// `--complete`, and `check B C`, where no name begins with a hyphen.
pub fn run_proves_what_run_accepts<F: Files + Drop>(
    alloc: Global,
    proving: Run<F>,
    checking: Run<F>,
) -> (Printed, Printed)
    ensures asked { ProofsAreAccepted
        (asked_of proving.arguments.items
        (F.held proving.files) (F.opened proving.files) (F.faults proving.files))
        (asked_of checking.arguments.items
        (F.held checking.files) (F.opened checking.files) (F.faults checking.files))
        result.0.text.items result.1.text.items
        (exit_status result.0.code) (exit_status result.1.code) }
    ensures words { ProofsByWords
        (asked_of proving.arguments.items
        (F.held proving.files) (F.opened proving.files) (F.faults proving.files))
        (asked_of checking.arguments.items
        (F.held checking.files) (F.opened checking.files) (F.faults checking.files))
        result.0.text.items result.1.text.items
        (exit_status result.0.code) (exit_status result.1.code) }
{
    words_are_known();
    proofs_are_verified();
    let cert = run_with(alloc, proving, b"");
    let check = run_with(alloc, checking, b"");
    (cert, check)
}

/// A run for the words `prove --complete A`, where A does not begin with a hyphen and holds a P3 text that is read. It decides: it
/// ends with status 0 only if the picture's clues have one solution, and else it writes `ambiguous`, and there is another picture.
/// So it never writes `undecided`. Or memory runs out, a read or a write fails, or the file is longer than 16 MiB.
pub fn run_decides<F: Files + Drop>(alloc: Global, proving: Run<F>) -> Printed
    ensures { CompleteRunsDecide
        (asked_of proving.arguments.items
        (F.held proving.files) (F.opened proving.files) (F.faults proving.files))
        result.text.items (exit_status result.code) }
{
    words_are_known();
    proofs_are_verified();
    run_with(alloc, proving, b"")
}

/// Two runs: `prove --givens G A` makes a certificate and ends with status 0, and `check --givens H B C` checks it, where B and H
/// hold what A and G do, C holds the certificate, and no name begins with a hyphen. The second accepts, unless memory runs out, a
/// read or a write fails, or one of the files is longer than 16 MiB.
pub fn run_accepts_with_givens<F: Files + Drop>(
    alloc: Global,
    proving: Run<F>,
    checking: Run<F>,
) -> (Printed, Printed)
    ensures { GivenProofsByWords
        (asked_of proving.arguments.items
        (F.held proving.files) (F.opened proving.files) (F.faults proving.files))
        (asked_of checking.arguments.items
        (F.held checking.files) (F.opened checking.files) (F.faults checking.files))
        result.0.text.items result.1.text.items
        (exit_status result.0.code) (exit_status result.1.code) }
{
    words_are_known();
    published_proofs_are_verified();
    let cert = run_with(alloc, proving, b"");
    let check = run_with(alloc, checking, b"");
    (cert, check)
}
