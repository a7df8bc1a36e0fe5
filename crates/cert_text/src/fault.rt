//! What can be wrong with a certificate or with a proof by lemmas, with names and line numbers.

ghost use Rattle.std.specs.Prelude.{◌≡◌};
ghost use Rattle.cert_text.specs.Faults.{name_of, place_of};
ghost use Rattle.cert_text.specs.declared.fault.CertFault.TheVariants.{Memory};

use std::alloc::{AllocError, AllocFailed};
use thiserror::Error;

/// What is wrong with a certificate or with a proof by lemmas: the first error from the top, with the number of its
/// line, counted from 1.
#[derive(Clone, Copy, Debug, PartialEq, Eq, Error)]
pub enum CertFault {
    /// The first line is not that of the format.
    #[error("line {0}: not a certificate")]
    NotCert(usize),
    /// The line has none of the format's forms, or a given is where it may not be.
    #[error("line {0}: not a line of a certificate")]
    BadLine(usize),
    /// A row or a column is named that the picture doesn't have.
    #[error("line {0}: outside the picture")]
    Place(usize),
    /// A lemma is named that is not kept. No certificate has this error.
    #[error("line {0}: no such lemma")]
    NoLemma(usize),
    /// A lemma begins, or is dropped, while a branch waits; or colours are denied elsewhere than at the beginning
    /// of a lemma. No certificate has this error.
    #[error("line {0}: not here")]
    Misplaced(usize),
    /// The lemmas that are kept would have too many literals. No certificate has this error.
    #[error("line {0}: too many literals")]
    Full(usize),
    /// Some list of colours fits the line that is called dead, or some literal of the lemma has a colour left.
    #[error("line {0}: not dead")]
    NotDead(usize),
    /// Some cell has a colour left other than the picture's.
    #[error("line {0}: not done")]
    NotDone(usize),
    /// The lines end before the tree is complete. The number is that of the line that is missing.
    #[error("line {0}: the certificate ends too early")]
    Ended(usize),
    /// A line comes after the end of the tree.
    #[error("line {0}: behind the end")]
    Trailing(usize),
    /// An allocation was refused.
    #[error("out of memory")]
    Memory,
    /// All was accepted, but a cell is given that is not published.
    #[error("line {0}: a given that is not published")]
    UnpublishedGiven(usize),
}

impl CertFault {
    /// The error's name, as the variant is called.
    pub fn name(&self) -> &'static str
        ensures { result.now ≡ name_of self.now }
    {
        self.told().0
    }

    /// The number of the line in error, counted from 1. None for `Memory`.
    pub fn place(&self) -> Option<usize>
        ensures { result ≡ place_of self.now }
    {
        self.told().1
    }

    // The error's name and place.
    fn told(&self) -> (&'static str, Option<usize>)
        ensures name { result.0.now ≡ name_of self.now }
        ensures place { result.1 ≡ place_of self.now }
    {
        match *self {
            CertFault::NotCert(line) => ("NotCert", Some(line)),
            CertFault::BadLine(line) => ("BadLine", Some(line)),
            CertFault::Place(line) => ("Place", Some(line)),
            CertFault::NoLemma(line) => ("NoLemma", Some(line)),
            CertFault::Misplaced(line) => ("Misplaced", Some(line)),
            CertFault::Full(line) => ("Full", Some(line)),
            CertFault::NotDead(line) => ("NotDead", Some(line)),
            CertFault::NotDone(line) => ("NotDone", Some(line)),
            CertFault::Ended(line) => ("Ended", Some(line)),
            CertFault::Trailing(line) => ("Trailing", Some(line)),
            CertFault::Memory => ("Memory", None),
            CertFault::UnpublishedGiven(line) => ("UnpublishedGiven", Some(line)),
        }
    }
}

impl From<AllocError> for CertFault {
    ghost from_gives = { λ _ e. e ≡ Memory };

    fn from(_e: AllocError) -> CertFault {
        CertFault::Memory
    }
}

impl<T: Drop> From<AllocFailed<T>> for CertFault {
    ghost from_gives = { λ _ e. e ≡ Memory };

    fn from(_refused: AllocFailed<T>) -> CertFault {
        CertFault::Memory
    }
}
