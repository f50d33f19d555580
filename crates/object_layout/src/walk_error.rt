//! Why a walk ended.
use disk_model::DiskError;
use std::alloc::AllocFailed;

/// Why a walk ended before it had passed.
#[derive(Clone, Copy, Debug, PartialEq, Eq)]
pub enum WalkError {
    /// The walk fails, first at this word address.
    Damaged { address: u32 },
    /// The disk failed, or had stopped.
    Disk(DiskError),
    /// Out of memory.
    NoMemory,
}

impl From<DiskError> for WalkError {
    ghost use Rattle.std.specs.Prelude.{◌≡◌};
    ghost use Rattle.object_layout.specs.declared.walk_error.WalkError.TheVariants.{Disk};

    ghost from_gives = { λ error e. e ≡ Disk error };

    fn from(error: DiskError) -> WalkError {
        WalkError::Disk(error)
    }
}

impl<T: Drop> From<AllocFailed<T>> for WalkError {
    ghost use Rattle.std.specs.Prelude.{◌≡◌};
    ghost use Rattle.object_layout.specs.declared.walk_error.WalkError.TheVariants.{NoMemory};

    ghost from_gives = { λ _ e. e ≡ NoMemory };

    fn from(_refused: AllocFailed<T>) -> WalkError {
        WalkError::NoMemory
    }
}
