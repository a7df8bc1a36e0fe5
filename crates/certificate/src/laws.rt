//! Laws of the definitions in `specs/`. Each function does nothing, and its contract is the law.

ghost use Rattle.certificate.specs.MadeCert.{BasesAreOne};

pub use cert_text::laws::round_trip;

/// The facts at the root of a certificate whose givens are exactly a set's are the base of the set.
pub fn bases_are_one()
    ensures { BasesAreOne }
{}
