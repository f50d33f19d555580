//! Why a scan was not planned.
use disk_model::DiskError;
use object_layout::ReadError;
use std::alloc::{AllocError, AllocFailed};

/// Why the scan of a page was not planned.
#[derive(Clone, Copy, Debug, PartialEq, Eq)]
pub enum ScanError {
    /// The words are not those of a heap in this collection, and no records of a scan could follow: the page is not one of the current
    /// space's, a field leads to no object that is left to be copied, there is no room for a copy, or one of the two addresses of a
    /// field and of what it leads to is not taken.
    Damaged,
    /// The disk failed, or had stopped.
    Disk(DiskError),
    /// Out of memory.
    NoMemory,
}

impl From<DiskError> for ScanError {
    ghost use Rattle.std.specs.Prelude.{◌≡◌};
    ghost use Rattle.page_scanner.specs.declared.scan_error.ScanError.TheVariants.{Disk};

    ghost from_gives = { λ error e. e ≡ Disk error };

    fn from(error: DiskError) -> ScanError {
        ScanError::Disk(error)
    }
}

impl From<ReadError> for ScanError {
    ghost use Rattle.std.specs.Prelude.{◌≡◌};
    ghost use Rattle.page_scanner.specs.ScanFailure.{scan_error};

    ghost from_gives = { λ error e. e ≡ scan_error error };

    fn from(error: ReadError) -> ScanError {
        match error {
            ReadError::Disk(error) => ScanError::Disk(error),
            ReadError::NoMemory => ScanError::NoMemory,
        }
    }
}

impl From<AllocError> for ScanError {
    ghost use Rattle.std.specs.Prelude.{◌≡◌};
    ghost use Rattle.page_scanner.specs.declared.scan_error.ScanError.TheVariants.{NoMemory};

    ghost from_gives = { λ _ e. e ≡ NoMemory };

    fn from(_refused: AllocError) -> ScanError {
        ScanError::NoMemory
    }
}

impl<T: Drop> From<AllocFailed<T>> for ScanError {
    ghost use Rattle.std.specs.Prelude.{◌≡◌};
    ghost use Rattle.page_scanner.specs.declared.scan_error.ScanError.TheVariants.{NoMemory};

    ghost from_gives = { λ _ e. e ≡ NoMemory };

    fn from(_refused: AllocFailed<T>) -> ScanError {
        ScanError::NoMemory
    }
}
