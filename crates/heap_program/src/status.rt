//! How a run ends.
ghost use Rattle.std.specs.Prelude.{◌≡◌, Some};
ghost use Rattle.heap_program.specs.Status.{status_text, status_code};
ghost use Rattle.heap_program.specs.Output.{status_after};
ghost use Rattle.heap_program.specs.StatusOf.{command_status, script_status, input_status, format_status, open_status, write_status, halt_status};

use crate::output::WriteError;
use crate::play::Halt;
use command_words::CommandError;
use heap_core::{FormatError, OpenError};
use heap_io::TakeAllError;
use heap_recovery::At;
use script_text::ScriptError;
use std::fmt;

/// How a run ended.
#[derive(Clone, Copy, Debug, PartialEq, Eq)]
pub enum Status {
    /// All was done and printed.
    Done,
    /// Out of memory.
    NoMemory,
    /// The words of the command line are no command.
    Usage,
    /// The script has its first fault at that line, from 1; 0 stands for a script that is too long.
    Script { line: u64 },
    /// The script could not be read.
    ReadFault,
    /// The output could not be written.
    WriteFault,
    /// The disk failed.
    DiskFault,
    /// The disk holds no heap.
    NotHeap,
    /// The disk holds a heap that is damaged at that place.
    Damaged { at: At },
    /// The disk has `size` bytes of the `need` that the heap takes.
    TooSmall { size: u64, need: u64 },
}

impl Status {
    /// The exit status of the program.
    pub fn code(&self) -> u8
        ensures { result ≡ status_code self.now }
    {
        match self {
            Status::Done => 0,
            Status::NoMemory => 1,
            Status::Usage => 2,
            Status::Script { .. } => 3,
            Status::ReadFault => 4,
            Status::WriteFault => 5,
            Status::DiskFault => 6,
            Status::NotHeap => 7,
            Status::Damaged { .. } => 8,
            Status::TooSmall { .. } => 9,
        }
    }
}

/// The one line that the program writes on standard error.
impl fmt::Display for Status {
    ghost output = { λ status. Some (status_text status) };

    fn fmt<W: fmt::Write>(&self, f: &mut fmt::Formatter<W>) -> fmt::Result {
        match self {
            Status::Done => f.write_str("done"),
            Status::NoMemory => f.write_str("out of memory"),
            Status::Usage => f.write_str("usage: heap_shell format|play|threads|graph|load"),
            Status::Script { line } => write!(f, "script fault at line {line}"),
            Status::ReadFault => f.write_str("cannot read the script"),
            Status::WriteFault => f.write_str("cannot write the output"),
            Status::DiskFault => f.write_str("the disk failed"),
            Status::NotHeap => f.write_str("not a heap"),
            Status::Damaged { at } => write!(f, "damaged at {at}"),
            Status::TooSmall { size, need } => write!(f, "too small: {size} of {need}"),
        }
    }
}

impl From<CommandError> for Status {
    ghost from_gives = { λ e s. s ≡ command_status e };

    fn from(e: CommandError) -> Self {
        match e {
            CommandError::NoMemory => Status::NoMemory,
            CommandError::Usage => Status::Usage,
        }
    }
}

impl From<ScriptError> for Status {
    ghost from_gives = { λ e s. s ≡ script_status e };

    fn from(e: ScriptError) -> Self {
        match e {
            ScriptError::NoMemory => Status::NoMemory,
            ScriptError::Fault { line } => Status::Script { line },
        }
    }
}

impl From<TakeAllError> for Status {
    ghost from_gives = { λ e s. s ≡ input_status e };

    fn from(e: TakeAllError) -> Self {
        match e {
            TakeAllError::NoMemory => Status::NoMemory,
            TakeAllError::SourceFailed => Status::ReadFault,
            TakeAllError::TooLong => Status::Script { line: 0 },
        }
    }
}

impl From<FormatError> for Status {
    ghost from_gives = { λ e s. s ≡ format_status e };

    fn from(e: FormatError) -> Self {
        match e {
            FormatError::TooSmall { size, need } => Status::TooSmall { size, need },
            FormatError::DiskFault | FormatError::Stopped => Status::DiskFault,
        }
    }
}

impl From<OpenError> for Status {
    ghost from_gives = { λ e s. s ≡ open_status e };

    fn from(e: OpenError) -> Self {
        match e {
            OpenError::NoMemory => Status::NoMemory,
            OpenError::NotHeap => Status::NotHeap,
            OpenError::Damaged { at } => Status::Damaged { at },
            OpenError::DiskFault | OpenError::Stopped => Status::DiskFault,
        }
    }
}

impl From<WriteError> for Status {
    ghost from_gives = { λ e s. s ≡ write_status e };

    fn from(e: WriteError) -> Self {
        match e {
            WriteError::NoMemory => Status::NoMemory,
            WriteError::SinkFailed => Status::WriteFault,
        }
    }
}

/// A disk that stopped without being asked to has failed.
impl From<Halt> for Status {
    ghost from_gives = { λ halt s. s ≡ halt_status halt };

    fn from(halt: Halt) -> Self {
        match halt {
            Halt::NoMemory => Status::NoMemory,
            Halt::WriteFault => Status::WriteFault,
            Halt::DiskFault | Halt::Stopped => Status::DiskFault,
        }
    }
}

/// How a run ends after it has written its output, or failed to.
pub fn status_after(written: Result<(), WriteError>) -> Status
    ensures { result ≡ status_after written }
{
    match written {
        Ok(()) => Status::Done,
        Err(e) => Status::from(e),
    }
}
