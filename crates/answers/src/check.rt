//! The check of a picture's certificate, which may have any givens or only those that are published.

ghost use Rattle.std.specs.Prelude.{◌≡◌, ◌⊎◌, IfErr, OnOk, option_map};
ghost use Rattle.program_options.specs.declared.fault.ProgramFault.TheVariants.{Memory, Write as Unwritten};
ghost use Rattle.text_check.specs.Check.{IsLemmaProofOf, IsOnlyPicture, IsProofOf};
ghost use Rattle.answers.specs.Check.{IsCheckOf, WritesBy};

use picture::{Rgb, send};
use program_options::ProgramFault;
use std::alloc::Global;
use std::io::Write;
use text_check::check_texts;

#[tactic(auto, using(crate::proofs::CheckLemmas::line_by))]
/// Checks a certificate of the picture of a P3 text, whose background is the one that is passed, or else white, and
/// writes `certificate accepted`, with the number of givens where there are some. `givens` is the text of the file of the givens
/// that are published; without it, the certificate may have any.
///
/// A certificate of any form is taken. Where the answer is Ok, the picture is the only one of its size with its clues and its
/// colours in the *published* cells or, without a text of these, in the certificate's givens. Otherwise the answer is the error of the
/// first that refuses: the reader of the picture, of the givens, of the certificate, the checker. Where none does, it is
/// `UnpublishedGiven` for the certificate's first given that is not published. After a write error a prefix of the line was written,
/// and after any other error nothing.
pub fn run_check<W: Write>(
    alloc: Global,
    file: &[u8],
    cert: &[u8],
    givens: Option<&[u8]>,
    background: Option<Rgb>,
    writer: &mut W,
) -> Result<(), ProgramFault>
    ensures writes { WritesBy (W.contents writer.old) (W.contents writer.new) result
        (IsCheckOf file.now background (option_map (λ text. text.now) givens.entry) cert.now) }
    ensures only { IsProofOf file.now background (option_map (λ text. text.now) givens.entry)
        cert.now → IfErr result (λ e. (e ≡ Memory) ⊎ (e ≡ Unwritten)) }
    ensures only_lemmas { IsLemmaProofOf file.now background
        (option_map (λ text. text.now) givens.entry) cert.now
        → IfErr result (λ e. (e ≡ Memory) ⊎ (e ≡ Unwritten)) }
    ensures unique { OnOk result (IsOnlyPicture file.now background
        (option_map (λ text. text.now) givens.entry) cert.now) }
{
    let accepted = check_texts(alloc, file, cert, givens, background)?;
    Ok(send(&accepted.line, writer)?)
}
