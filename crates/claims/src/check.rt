//! A certificate of any form proves uniqueness, in its own givens or in those that are published.

ghost use Rattle.std.specs.Prelude.{◌≡◌, None, true};
ghost use Rattle.text_check.specs.Check.{IsOnlyPicture};
ghost use Rattle.claims.specs.Solution.{IsOnlyPublished};

use answers::run_check;
use picture::Rgb;
use std::alloc::Global;

/// Whether a certificate of any form is accepted for the picture of a P3 text, which is then the only one of its size with its clues and
/// its colours in the certificate's givens. That it is accepted if it proves the picture is said by `only` and `only_lemmas` of
/// `run_check`, and not here, since the answer is also false where memory runs out.
pub fn certificate_is_accepted(
    alloc: Global,
    file: &[u8],
    cert: &[u8],
    background: Option<Rgb>,
) -> bool
    ensures { result ≡ true → IsOnlyPicture file.now background None cert.now }
{
    let mut line = Vec::new(alloc);
    run_check(alloc, file, cert, None, background, &mut line).is_ok()
}

/// Whether a certificate is accepted for the picture of a P3 text with the text of its file of givens. The picture is then the
/// only one of its size with its clues and its colours in the cells that are published. The other direction is as for
/// `certificate_is_accepted`.
pub fn published_is_accepted(
    alloc: Global,
    file: &[u8],
    cert: &[u8],
    givens: &[u8],
    background: Option<Rgb>,
) -> bool
    ensures { result ≡ true → IsOnlyPublished file.now background givens.now }
{
    let mut line = Vec::new(alloc);
    run_check(alloc, file, cert, Some(givens), background, &mut line).is_ok()
}
