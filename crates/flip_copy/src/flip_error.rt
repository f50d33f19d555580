//! Why a flip was not planned.
ghost use Rattle.flip_copy.specs.declared.flip_error.FlipError.TheVariants.{NoMemory};

use disk_model::DiskError;
use object_layout::ReadError;
use std::alloc::{AllocError, AllocFailed};

/// Why a flip was not planned. Nothing has changed.
#[derive(Clone, Copy, Debug, PartialEq, Eq)]
pub enum FlipError {
    /// The roots are not ascending starts of objects in the current space's used words.
    NoObject,
    /// The disk failed, or had stopped.
    Disk(DiskError),
    /// Out of memory.
    NoMemory,
}

impl From<DiskError> for FlipError {
    ghost use Rattle.std.specs.Prelude.{◌≡◌};
    ghost use Rattle.flip_copy.specs.declared.flip_error.FlipError.TheVariants.{Disk};

    ghost from_gives = { λ error e. e ≡ Disk error };

    fn from(error: DiskError) -> FlipError {
        FlipError::Disk(error)
    }
}

impl From<ReadError> for FlipError {
    ghost use Rattle.std.specs.Prelude.{◌≡◌};
    ghost use Rattle.flip_copy.specs.FlipFailure.{flip_error};

    ghost from_gives = { λ error e. e ≡ flip_error error };

    fn from(error: ReadError) -> FlipError {
        match error {
            ReadError::Disk(error) => FlipError::Disk(error),
            ReadError::NoMemory => FlipError::NoMemory,
        }
    }
}

impl<T: Drop> From<AllocFailed<T>> for FlipError {
    ghost use Rattle.std.specs.Prelude.{◌≡◌};

    ghost from_gives = { λ _ e. e ≡ NoMemory };

    fn from(_refused: AllocFailed<T>) -> FlipError {
        FlipError::NoMemory
    }
}

impl From<AllocError> for FlipError {
    ghost use Rattle.std.specs.Prelude.{◌≡◌};

    ghost from_gives = { λ _ e. e ≡ NoMemory };

    fn from(_refused: AllocError) -> FlipError {
        FlipError::NoMemory
    }
}
