//! Why a graph was not printed.
use disk_model::DiskError;
use object_layout::ReadError;
use std::alloc::AllocError;

/// Why a graph was not printed.
#[derive(Clone, Copy, Debug, PartialEq, Eq)]
pub enum PrintError {
    /// The root, at this word address, names no object; or it does, and the first object in the order of the numbers with a field that
    /// names none stands at this one.
    Damaged { address: u32 },
    /// The disk failed, or had stopped.
    Disk(DiskError),
    /// Out of memory.
    NoMemory,
}

impl From<DiskError> for PrintError {
    ghost use Rattle.std.specs.Prelude.{◌≡◌};
    ghost use Rattle.graph_print.specs.declared.print_error.PrintError.TheVariants.{Disk};

    ghost from_gives = { λ error e. e ≡ Disk error };

    fn from(error: DiskError) -> PrintError {
        PrintError::Disk(error)
    }
}

impl From<ReadError> for PrintError {
    ghost use Rattle.std.specs.Prelude.{◌≡◌};
    ghost use Rattle.graph_print.specs.FromRead.{print_error};

    ghost from_gives = { λ error e. e ≡ print_error error };

    fn from(error: ReadError) -> PrintError {
        match error {
            ReadError::Disk(error) => PrintError::Disk(error),
            ReadError::NoMemory => PrintError::NoMemory,
        }
    }
}

impl From<AllocError> for PrintError {
    ghost use Rattle.std.specs.Prelude.{◌≡◌};
    ghost use Rattle.graph_print.specs.declared.print_error.PrintError.TheVariants.{NoMemory};

    ghost from_gives = { λ _ e. e ≡ NoMemory };

    fn from(_refused: AllocError) -> PrintError {
        PrintError::NoMemory
    }
}
