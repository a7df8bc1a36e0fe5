//! Why a session ends early.

ghost use Rattle.std.specs.Prelude.{◌≡◌};
ghost use Rattle.command_text.specs.declared.session_fault.SessionFault.TheVariants.{Read as Unread, Write as Unwritten};

use crate::lines::ReadFault;
use picture::WriteFault;
use thiserror::Error;

/// Why a session ended before its input did.
#[derive(Clone, Copy, Debug, PartialEq, Eq, Error)]
pub enum SessionFault {
    /// A read failed, or more than 1,048,576 reads were needed.
    #[error("read failed")]
    Read,
    /// A write failed, or took no byte.
    #[error("write failed")]
    Write,
}

impl From<ReadFault> for SessionFault {
    ghost from_gives = { λ _ e. e ≡ Unread };

    fn from(_fault: ReadFault) -> SessionFault {
        SessionFault::Read
    }
}

impl From<WriteFault> for SessionFault {
    ghost from_gives = { λ _ e. e ≡ Unwritten };

    fn from(_fault: WriteFault) -> SessionFault {
        SessionFault::Write
    }
}
