//! Errors with the numbers of their lines in the text.

ghost use Rattle.std.specs.Prelude.{◌≡◌};
ghost use Rattle.cert_check.specs.Moving.{moved_to};

use cert_text::CertFault;

// The error with the number of another line.
pub(crate) fn moved(fault: CertFault, line: usize) -> CertFault
    ensures { result ≡ moved_to fault line }
{
    match fault {
        CertFault::NotCert(_) => CertFault::NotCert(line),
        CertFault::BadLine(_) => CertFault::BadLine(line),
        CertFault::Place(_) => CertFault::Place(line),
        CertFault::NoLemma(_) => CertFault::NoLemma(line),
        CertFault::Misplaced(_) => CertFault::Misplaced(line),
        CertFault::Full(_) => CertFault::Full(line),
        CertFault::NotDead(_) => CertFault::NotDead(line),
        CertFault::NotDone(_) => CertFault::NotDone(line),
        CertFault::Ended(_) => CertFault::Ended(line),
        CertFault::Trailing(_) => CertFault::Trailing(line),
        CertFault::UnpublishedGiven(_) => CertFault::UnpublishedGiven(line),
        CertFault::Memory => CertFault::Memory,
    }
}
