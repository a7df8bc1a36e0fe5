//! Why the program ends with a status other than 0.

ghost use Rattle.std.specs.Prelude.{◌≡◌, Some};
ghost use Rattle.program_options.specs.declared.fault.ProgramFault.TheVariants.{Givens as Refused, Memory, Write as Unwritten};
ghost use Rattle.program_options.specs.Faults.{cert_fault_of, check_fault_of, fault_of, fault_text, non_fault_of, session_fault_of, status_of};

use cert_text::CertFault;
use command_text::SessionFault;
use edits::EditFault;
use non_text::NonFault;
use picture::WriteFault;
use ppm_text::PpmFault;
use std::alloc::AllocError;
use std::fmt;
use text_check::{CheckFault, GivensFault};

/// Why the program ends with a status other than 0. `Display` gives its message, and `status` the exit status.
#[derive(Debug, PartialEq, Eq, Drop)]
pub enum ProgramFault {
    /// The P3 text was refused.
    Ppm(PpmFault),
    /// The .non text was refused.
    Non(NonFault),
    /// The paint was refused.
    Edit(EditFault),
    /// The .non text has no goal, and no picture has its clues.
    NoPicture,
    /// The .non text has no goal, so that there is no picture to assess.
    NoGoal,
    /// The certificate was refused.
    Cert(CertFault),
    /// There is no certificate to show: `ambiguous` or `undecided` was written in its place.
    NoCertificate,
    /// The file of givens was refused.
    Givens(GivensFault),
    /// Memory ran out.
    Memory,
    /// The input has more than 16,777,216 bytes.
    TooLong,
    /// The words were refused by their parser, with this text.
    Words(String),
    /// A word is not UTF-8.
    NotText,
    /// Help or the version was asked for, and something else with it.
    HelpBeside,
    /// The background's colour is not three samples, as in `255,0,0`.
    Background,
    /// A background's colour was given for a .non text.
    BackgroundOfNon,
    /// The allowance is neither a number up to 99,999 nor `off`.
    Allowance,
    /// A file of givens or a certificate was named for several puzzles.
    OneFile,
    /// A puzzle that was assessed is unfit or was refused, as its block says.
    Unfit,
    /// A read failed.
    Read,
    /// A write failed.
    Write,
}

impl From<AllocError> for ProgramFault {
    ghost from_gives = { λ _ e. e ≡ Memory };

    fn from(_refused: AllocError) -> ProgramFault {
        ProgramFault::Memory
    }
}

impl ProgramFault {
    /// The exit status: 1 for a fault of the input or of memory, 2 for the words, 3 for reading and writing.
    pub fn status(&self) -> u8
        ensures { result ≡ status_of self.now }
    {
        match self {
            ProgramFault::Words(_) | ProgramFault::NotText => 2,
            ProgramFault::HelpBeside | ProgramFault::OneFile => 2,
            ProgramFault::Background | ProgramFault::BackgroundOfNon => 2,
            ProgramFault::Allowance => 2,
            ProgramFault::Read | ProgramFault::Write => 3,
            _ => 1,
        }
    }
}

impl fmt::Display for ProgramFault {
    ghost output = { λ fault. Some (fault_text fault) };

    fn fmt<W: fmt::Write>(&self, f: &mut fmt::Formatter<W>) -> fmt::Result {
        match self {
            ProgramFault::Ppm(fault) => CheckFault::Ppm(*fault).fmt(f),
            ProgramFault::Non(fault) => write!(f, "non {}", fault.name()),
            ProgramFault::Edit(fault) => write!(f, "edit {}", fault.name()),
            ProgramFault::NoPicture => f.write_str("no picture has these clues"),
            ProgramFault::NoGoal => f.write_str("non NoGoal"),
            ProgramFault::Cert(fault) => CheckFault::Cert(*fault).fmt(f),
            ProgramFault::NoCertificate => f.write_str("no certificate"),
            ProgramFault::Givens(fault) => CheckFault::Givens(*fault).fmt(f),
            ProgramFault::Memory => CheckFault::Memory.fmt(f),
            ProgramFault::TooLong => f.write_str("input too long"),
            ProgramFault::Words(text) => f.write_str(text.as_str()),
            ProgramFault::NotText => f.write_str("a word is not UTF-8"),
            ProgramFault::HelpBeside => {
                f.write_str("help and version go alone; a name that begins with - needs ./ or --")
            }
            ProgramFault::Background => f.write_str("background must be R,G,B"),
            ProgramFault::BackgroundOfNon => f.write_str("background goes with ppm"),
            ProgramFault::Allowance => f.write_str("allowance must be 0 to 99999 or off"),
            ProgramFault::OneFile => f.write_str("givens and certificate go with one file"),
            ProgramFault::Unfit => f.write_str("unfit"),
            ProgramFault::Read => f.write_str("read failed"),
            ProgramFault::Write => f.write_str("write failed"),
        }
    }
}

impl From<CheckFault> for ProgramFault {
    ghost from_gives = { λ fault e. e ≡ check_fault_of fault };

    fn from(fault: CheckFault) -> ProgramFault {
        match fault {
            CheckFault::Ppm(fault) => ProgramFault::Ppm(fault),
            CheckFault::Givens(fault) => ProgramFault::Givens(fault),
            CheckFault::Cert(fault) => ProgramFault::Cert(fault),
            CheckFault::Memory => ProgramFault::Memory,
        }
    }
}

impl From<PpmFault> for ProgramFault {
    ghost from_gives = { λ fault e. e ≡ fault_of fault };

    fn from(fault: PpmFault) -> ProgramFault {
        ProgramFault::from(CheckFault::from(fault))
    }
}

impl From<NonFault> for ProgramFault {
    ghost from_gives = { λ fault e. e ≡ non_fault_of fault };

    fn from(fault: NonFault) -> ProgramFault {
        match fault {
            NonFault::Memory => ProgramFault::Memory,
            _ => ProgramFault::Non(fault),
        }
    }
}

impl From<SessionFault> for ProgramFault {
    ghost from_gives = { λ fault e. e ≡ session_fault_of fault };

    fn from(fault: SessionFault) -> ProgramFault {
        match fault {
            SessionFault::Read => ProgramFault::Read,
            SessionFault::Write => ProgramFault::Write,
        }
    }
}

impl From<CertFault> for ProgramFault {
    ghost from_gives = { λ fault e. e ≡ cert_fault_of fault };

    fn from(fault: CertFault) -> ProgramFault {
        ProgramFault::from(CheckFault::from(fault))
    }
}

impl From<GivensFault> for ProgramFault {
    ghost from_gives = { λ fault e. e ≡ Refused fault };

    fn from(fault: GivensFault) -> ProgramFault {
        ProgramFault::Givens(fault)
    }
}

impl From<WriteFault> for ProgramFault {
    ghost from_gives = { λ _ e. e ≡ Unwritten };

    fn from(_fault: WriteFault) -> ProgramFault {
        ProgramFault::Write
    }
}
