//! A certificate with lemmas in its older form.

ghost use Rattle.std.specs.Prelude.{◌≡◌, [], IfOk};
ghost use Rattle.cert_text.specs.Cert.{certificate};
ghost use Rattle.lemma_proof.specs.Making.{IsAsGood};

use cert_text::{Cert, Form};
use std::alloc::{AllocError, Global};

/// The same certificate in the form `Lemmas`, with a single step on each line.
pub fn with_single_steps(alloc: Global, cert: &Cert) -> Result<Cert, AllocError>
    ensures good { IfOk result (IsAsGood cert.now) }
    ensures same { IfOk result (λ one.
        one ≡ certificate Form.Lemmas cert.now.givens cert.now.lines []) }
{
    let mut givens = Vec::new(alloc);
    givens.extend_from_slice(cert.givens())?;
    let mut lines = Vec::new(alloc);
    lines.extend_from_slice(cert.lines())?;
    Ok(Cert::new(Form::Lemmas, givens, lines, Vec::new(alloc)))
}
