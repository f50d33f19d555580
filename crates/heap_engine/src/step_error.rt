//! Why an event was not made.
use disk_model::DiskError;
use std::alloc::AllocError;
use thiserror::Error;

/// Why an event was not made.
#[derive(Clone, Copy, Debug, PartialEq, Eq, Error)]
pub enum StepError {
    /// Out of memory. The event changed nothing, and may be asked again.
    #[error("memory was refused")]
    NoMemory,
    /// The disk failed or stopped in the event. The engine makes no other one.
    #[error("the disk failed or stopped")]
    Disk(DiskError),
}

impl From<AllocError> for StepError {
    ghost use Rattle.std.specs.Prelude.{◌≡◌};
    ghost use Rattle.heap_engine.specs.declared.step_error.StepError.TheVariants.{NoMemory};

    ghost from_gives = { λ _ error. error ≡ NoMemory };

    fn from(_: AllocError) -> Self {
        StepError::NoMemory
    }
}

impl From<DiskError> for StepError {
    ghost use Rattle.std.specs.Prelude.{◌≡◌};
    ghost use Rattle.heap_engine.specs.declared.step_error.StepError.TheVariants.{Disk};

    ghost from_gives = { λ e error. error ≡ Disk e };

    fn from(e: DiskError) -> Self {
        StepError::Disk(e)
    }
}
