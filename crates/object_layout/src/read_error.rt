//! Why words could not be read.
ghost use Rattle.object_layout.specs.declared.read_error.ReadError.TheVariants.{NoMemory};

use disk_model::DiskError;
use std::alloc::{AllocError, AllocFailed};

/// Why several words could not be read.
#[derive(Clone, Copy, Debug, PartialEq, Eq)]
pub enum ReadError {
    /// The disk failed, or had stopped.
    Disk(DiskError),
    /// Out of memory.
    NoMemory,
}

impl From<DiskError> for ReadError {
    ghost use Rattle.std.specs.Prelude.{◌≡◌};
    ghost use Rattle.object_layout.specs.declared.read_error.ReadError.TheVariants.{Disk};

    ghost from_gives = { λ error e. e ≡ Disk error };

    fn from(error: DiskError) -> ReadError {
        ReadError::Disk(error)
    }
}

impl<T: Drop> From<AllocFailed<T>> for ReadError {
    ghost use Rattle.std.specs.Prelude.{◌≡◌};

    ghost from_gives = { λ _ e. e ≡ NoMemory };

    fn from(_refused: AllocFailed<T>) -> ReadError {
        ReadError::NoMemory
    }
}

impl From<AllocError> for ReadError {
    ghost use Rattle.std.specs.Prelude.{◌≡◌};

    ghost from_gives = { λ _ e. e ≡ NoMemory };

    fn from(_refused: AllocError) -> ReadError {
        ReadError::NoMemory
    }
}
