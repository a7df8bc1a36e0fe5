//! Laws of what is published and checked. Each function at most reads its bench, and its contract is the law.

ghost use Rattle.claims.specs.Fit.{FitPuzzlesAreFit};
ghost use Rattle.claims.specs.Laws.{PairsAreAccepted};
ghost use Rattle.claims.specs.Printed.{OneFileIsOneDocument, PrintedAreAccepted, StartedAreAccepted, UniqueArePublished};
ghost use Rattle.claims.specs.Proofs.{CompleteSearchesDecide, ProofsAreVerified, PublishedProofsAreVerified};
ghost use Rattle.claims.specs.Solution.{PlainLinesAreOneSolution, PublishedAreSolved};

use certificate::laws::round_trip as certificates_are_read;
use line_facts::LineEngine;
use live_audit::Bench;
use ppm_text::round_trip as pictures_are_read;
use propagate::Agenda;

/// What a designer prints is what a site accepts. For a bench in any state: the bytes that `certify` prints and the bytes that
/// `write ppm` prints are, with the document's background, a pair that `run_check` accepts, and the line that it shows says so.
/// Where `certify` prints `ambiguous`, there is no certificate.
///
/// The picture is the only one with its clues and its colours in the certificate's givens. Where the document has no given, the
/// line is `certificate accepted` alone, and the published picture's clues have one solution.
pub fn published_pairs_are_accepted<E: LineEngine + Drop, A: Agenda + Drop>(bench: &Bench<E, A>)
    ensures accepted { PairsAreAccepted bench.now }
    ensures made { PublishedAreSolved bench.now }
{
    certificates_are_read();
    pictures_are_read();
    let document = bench.document();
    let _ = (document.palette.len(), document.picture.height());
}

/// Every unique picture can be published: where there is no other picture for the document of a bench, what `certify` prints
/// is a certificate, and `run_check` accepts it with what `write ppm` prints, unless memory runs out.
pub fn unique_pictures_are_published<E: LineEngine + Drop, A: Agenda + Drop>(bench: &Bench<E, A>)
    ensures { UniqueArePublished bench.now }
{
    certificates_are_read();
    pictures_are_read();
    let document = bench.document();
    let _ = (document.palette.len(), document.picture.height());
}

/// The bytes that two sessions write can be published. The input of one is `write ppm` alone, and it writes the picture; that
/// of the other is `certify` alone, and it writes the certificate. Where neither writes `refused: Memory` and the second does
/// not write `ambiguous`, `run_check` accepts the pair, with the background of the bench's document. Each session may run on
/// another bench with the same history, such as two that start with the same P3 file and options (`one_file_is_one_document`).
pub fn printed_bytes_are_accepted<E: LineEngine + Drop, A: Agenda + Drop>(bench: &Bench<E, A>)
    ensures { PrintedAreAccepted bench.now }
{
    published_pairs_are_accepted(bench);
}

/// The same for benches that were started with a file, whatever benches they are.
pub fn started_prints_are_accepted()
    ensures { StartedAreAccepted }
{
    certificates_are_read();
    pictures_are_read();
}

#[tactic(auto, using(crate::proofs::PrintLemmas::one_document))]
/// Benches that are started with the same P3 file and the same options have the same history, so the same document.
pub fn one_file_is_one_document()
    ensures { OneFileIsOneDocument }
{}

#[tactic(auto, using(crate::proofs::SolutionLemmas::plain_lines))]
/// Where a check answers Ok, and its line is `certificate accepted` alone, the picture's clues have one solution.
pub fn plain_lines_are_one_solution()
    ensures { PlainLinesAreOneSolution }
{}

/// A certificate that `prove` shows for a file is what `check` accepts, in any form: it is read as a certificate, `run_check`
/// accepts it for the file with the line `certificate accepted`, and the picture's clues have one solution.
pub fn proofs_are_verified()
    ensures { ProofsAreVerified }
{}

/// The same where givens are published: `run_check` accepts it with the same file of givens.
pub fn published_proofs_are_verified()
    ensures { PublishedProofsAreVerified }
{}

/// A complete search always decides: it shows a certificate exactly if the picture is the only one with its clues and its colours
/// in the givens, and else `ambiguous`.
pub fn complete_searches_decide()
    ensures { CompleteSearchesDecide }
{}

/// A puzzle whose block says that it is fit to be published has exactly one solution with the givens that are published, and no flaw.
/// Each given is needed, where no allowance is set and no certificate given.
pub fn fit_puzzles_are_fit()
    ensures { FitPuzzlesAreFit }
{}
