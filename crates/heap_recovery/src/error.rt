//! Why an image can't be opened.
use crate::at::At;
use disk_model::DiskError;
use gated_log::LogError;
use page_store::ReadPagesError;
use std::alloc::AllocError;

/// Why an image can't be opened.
#[derive(Clone, Copy, Debug, PartialEq, Eq)]
pub enum RecoverError {
    /// Out of memory.
    NoMemory,
    /// The disk holds no heap: no good superblock, or fewer bytes than its plan.
    NotHeap,
    /// The disk holds a heap that is damaged there.
    Damaged { at: At },
    /// The disk failed or stopped.
    Disk(DiskError),
}

impl From<AllocError> for RecoverError {
    ghost use Rattle.std.specs.Prelude.{◌≡◌};
    ghost use Rattle.heap_recovery.specs.declared.error.RecoverError.TheVariants.{NoMemory};

    ghost from_gives = { λ _ error. error ≡ NoMemory };

    fn from(_: AllocError) -> Self {
        RecoverError::NoMemory
    }
}

impl From<DiskError> for RecoverError {
    ghost use Rattle.std.specs.Prelude.{◌≡◌};
    ghost use Rattle.heap_recovery.specs.declared.error.RecoverError.TheVariants.{Disk};

    ghost from_gives = { λ e error. error ≡ Disk e };

    fn from(e: DiskError) -> Self {
        RecoverError::Disk(e)
    }
}

impl From<LogError> for RecoverError {
    ghost use Rattle.std.specs.Prelude.{◌≡◌};
    ghost use Rattle.heap_recovery.specs.Recovered.{log_error};

    ghost from_gives = { λ e error. error ≡ log_error e };

    fn from(e: LogError) -> Self {
        match e {
            LogError::NoMemory => RecoverError::NoMemory,
            LogError::BadBatch { at } => RecoverError::Damaged { at: At::Batch(at) },
            LogError::Disk(e) => RecoverError::Disk(e),
        }
    }
}

impl From<ReadPagesError> for RecoverError {
    ghost use Rattle.std.specs.Prelude.{◌≡◌};
    ghost use Rattle.heap_recovery.specs.Recovered.{pages_error};

    ghost from_gives = { λ e error. error ≡ pages_error e };

    fn from(e: ReadPagesError) -> Self {
        match e {
            ReadPagesError::NoMemory => RecoverError::NoMemory,
            ReadPagesError::Disk(e) => RecoverError::Disk(e),
        }
    }
}
