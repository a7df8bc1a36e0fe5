//! Why lines could not be propagated to a fixpoint.

ghost use Rattle.std.specs.Prelude.{◌≡◌};

use std::alloc::AllocError;
use thiserror::Error;

/// Why the lines of a picture could not be settled.
#[derive(Clone, Copy, Debug, PartialEq, Eq, Error)]
pub enum CloseFault {
    /// Some line has no list of colours that fits.
    #[error("some line has no colours that fit")]
    Dead,
    /// Memory ran out.
    #[error("out of memory")]
    Memory,
}

impl From<AllocError> for CloseFault {
    ghost use Rattle.fixpoint.specs.declared.fault.CloseFault.TheVariants as fault;

    ghost from_gives = { λ _ e. e ≡ fault.Memory };

    fn from(_refused: AllocError) -> CloseFault {
        CloseFault::Memory
    }
}
