//! Why a line gave no step.

ghost use Rattle.std.specs.Prelude.{◌≡◌};

use std::alloc::AllocError;
use thiserror::Error;

/// Why a line gave no step.
#[derive(Clone, Copy, Debug, PartialEq, Eq, Error)]
pub enum StepFault {
    /// No list of colours fits the line.
    #[error("no colours fit the line")]
    Dead,
    /// Memory ran out.
    #[error("out of memory")]
    Memory,
}

impl From<AllocError> for StepFault {
    ghost use Rattle.justify.specs.declared.fault.StepFault.TheVariants as fault;

    ghost from_gives = { λ _ e. e ≡ fault.Memory };

    fn from(_refused: AllocError) -> StepFault {
        StepFault::Memory
    }
}
