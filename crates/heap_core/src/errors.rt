//! Why a call of a heap returns an error.
use disk_model::DiskError;
use graph_print::PrintError;
use heap_recovery::{At, RecoverError};
use std::alloc::AllocError;
use thiserror::Error;

/// Why a heap could not be made.
#[derive(Clone, Copy, Debug, PartialEq, Eq, Error)]
pub enum FormatError {
    /// The disk has `size` bytes of the `need` that the heap takes. It is unchanged.
    #[error("the disk has {size} bytes of {need}")]
    TooSmall { size: u64, need: u64 },
    /// The disk failed in a call.
    #[error("the disk failed")]
    DiskFault,
    /// The disk stopped.
    #[error("the disk stopped")]
    Stopped,
}

impl From<DiskError> for FormatError {
    ghost use Rattle.std.specs.Prelude.{◌≡◌};
    ghost use Rattle.heap_core.specs.GivenBack.{format_error};

    ghost from_gives = { λ e error. error ≡ format_error e };

    fn from(e: DiskError) -> Self {
        match e {
            DiskError::Failed => FormatError::DiskFault,
            DiskError::Stopped => FormatError::Stopped,
        }
    }
}

/// Why a heap could not be opened.
#[derive(Clone, Copy, Debug, PartialEq, Eq, Error)]
pub enum OpenError {
    /// Out of memory.
    #[error("memory was refused")]
    NoMemory,
    /// The disk holds no heap.
    #[error("the disk holds no heap")]
    NotHeap,
    /// The disk holds a heap that is damaged at that place.
    #[error("the heap is damaged: {at}")]
    Damaged { at: At },
    /// The disk failed in a call.
    #[error("the disk failed")]
    DiskFault,
    /// The disk stopped.
    #[error("the disk stopped")]
    Stopped,
}

impl From<RecoverError> for OpenError {
    ghost use Rattle.std.specs.Prelude.{◌≡◌};
    ghost use Rattle.heap_core.specs.Causes.{recovery_error};

    ghost from_gives = { λ e error. recovery_error error ≡ e };

    fn from(e: RecoverError) -> Self {
        match e {
            RecoverError::NoMemory => OpenError::NoMemory,
            RecoverError::NotHeap => OpenError::NotHeap,
            RecoverError::Damaged { at } => OpenError::Damaged { at },
            RecoverError::Disk(DiskError::Failed) => OpenError::DiskFault,
            RecoverError::Disk(DiskError::Stopped) => OpenError::Stopped,
        }
    }
}

/// Why the text of a graph could not be made.
#[derive(Clone, Copy, Debug, PartialEq, Eq, Error)]
pub enum GraphError {
    /// Out of memory.
    #[error("memory was refused")]
    NoMemory,
    /// The disk failed in a call.
    #[error("the disk failed")]
    DiskFault,
    /// The disk stopped.
    #[error("the disk stopped")]
    Stopped,
    /// No sound object stands at that word address. No heap that was opened holds such words.
    #[error("the heap is damaged: address {address}")]
    Damaged { address: u32 },
}

impl From<AllocError> for GraphError {
    ghost use Rattle.std.specs.Prelude.{◌≡◌};
    ghost use Rattle.heap_core.specs.declared.errors.GraphError.TheVariants.{NoMemory};

    ghost from_gives = { λ _ error. error ≡ NoMemory };

    fn from(_: AllocError) -> Self {
        GraphError::NoMemory
    }
}

impl From<PrintError> for GraphError {
    ghost use Rattle.std.specs.Prelude.{◌≡◌};
    ghost use Rattle.heap_core.specs.Causes.{graph_error};

    ghost from_gives = { λ e error. error ≡ graph_error e };

    fn from(e: PrintError) -> Self {
        match e {
            PrintError::NoMemory => GraphError::NoMemory,
            PrintError::Disk(DiskError::Failed) => GraphError::DiskFault,
            PrintError::Disk(DiskError::Stopped) => GraphError::Stopped,
            PrintError::Damaged { address } => GraphError::Damaged { address },
        }
    }
}
