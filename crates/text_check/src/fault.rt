//! Why a certificate is not accepted, by the texts of its files.

ghost use Rattle.std.specs.Prelude.{◌≡◌, Some};
ghost use Rattle.text_check.specs.declared.fault.CheckFault.TheVariants.{Givens as Refused, Memory};
ghost use Rattle.text_check.specs.Faults.{cert_fault_of, fault_of, fault_text};

use crate::givens_fault::GivensFault;
use cert_text::CertFault;
use ppm_text::PpmFault;
use std::alloc::AllocError;
use std::fmt;

/// Why a certificate is not accepted. `Display` gives the program's message.
#[derive(Clone, Copy, Debug, PartialEq, Eq)]
pub enum CheckFault {
    /// The P3 text was refused.
    Ppm(PpmFault),
    /// The file of givens was refused.
    Givens(GivensFault),
    /// The certificate was refused.
    Cert(CertFault),
    /// Memory ran out.
    Memory,
}

impl fmt::Display for CheckFault {
    ghost output = { λ fault. Some (fault_text fault) };

    fn fmt<W: fmt::Write>(&self, f: &mut fmt::Formatter<W>) -> fmt::Result {
        match self {
            CheckFault::Ppm(fault) => {
                let place = fault.place().unwrap_or(0);
                write!(f, "ppm {} at byte {place}", fault.name())
            }
            CheckFault::Givens(fault) => {
                let line = fault.place();
                write!(f, "givens {} at line {line}", fault.name())
            }
            CheckFault::Cert(fault) => {
                let line = fault.place().unwrap_or(0);
                write!(f, "certificate {} at line {line}", fault.name())
            }
            CheckFault::Memory => f.write_str("memory"),
        }
    }
}

impl From<AllocError> for CheckFault {
    ghost from_gives = { λ _ e. e ≡ Memory };

    fn from(_refused: AllocError) -> CheckFault {
        CheckFault::Memory
    }
}

impl From<PpmFault> for CheckFault {
    ghost from_gives = { λ fault e. e ≡ fault_of fault };

    fn from(fault: PpmFault) -> CheckFault {
        match fault {
            PpmFault::Memory => CheckFault::Memory,
            _ => CheckFault::Ppm(fault),
        }
    }
}

impl From<GivensFault> for CheckFault {
    ghost from_gives = { λ fault e. e ≡ Refused fault };

    fn from(fault: GivensFault) -> CheckFault {
        CheckFault::Givens(fault)
    }
}

impl From<CertFault> for CheckFault {
    ghost from_gives = { λ fault e. e ≡ cert_fault_of fault };

    fn from(fault: CertFault) -> CheckFault {
        match fault {
            CertFault::Memory => CheckFault::Memory,
            _ => CheckFault::Cert(fault),
        }
    }
}
