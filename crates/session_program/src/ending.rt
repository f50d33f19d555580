//! Why a session ends before its input does.
ghost use Rattle.std.specs.Prelude.{◌≡◌};
ghost use Rattle.session_program.specs.declared.ending.Break.TheVariants.{Halted, ReadFault};
ghost use Rattle.session_program.specs.Ending.{line_break, break_status};
ghost use Rattle.heap_program.specs.declared.play.Halt.TheVariants as halt;
ghost use Rattle.heap_program.specs.StatusOf.{write_halt};

use heap_program::{Halt, Status, WriteError};
use line_reader::LineError;
use std::alloc::AllocError;

/// Why a session went no further.
#[derive(Clone, Copy, Debug, PartialEq, Eq)]
pub enum Break {
    /// A line could not be answered.
    Halted(Halt),
    /// The next line could not be read.
    ReadFault,
}

impl From<Halt> for Break {
    ghost from_gives = { λ h b. b ≡ Halted h };

    fn from(halt: Halt) -> Self {
        Break::Halted(halt)
    }
}

impl From<WriteError> for Break {
    ghost from_gives = { λ e b. b ≡ Halted (write_halt e) };

    fn from(e: WriteError) -> Self {
        Break::Halted(Halt::from(e))
    }
}

impl From<AllocError> for Break {
    ghost from_gives = { λ _ b. b ≡ Halted halt.NoMemory };

    fn from(_: AllocError) -> Self {
        Break::Halted(Halt::NoMemory)
    }
}

impl From<LineError> for Break {
    ghost from_gives = { λ e b. b ≡ line_break e };

    fn from(e: LineError) -> Self {
        match e {
            LineError::NoMemory => Break::Halted(Halt::NoMemory),
            LineError::SourceFailed => Break::ReadFault,
        }
    }
}

/// The status of a session that ends so.
pub fn break_status(ended: Break) -> Status
    ensures { result ≡ break_status ended }
{
    match ended {
        Break::Halted(halt) => Status::from(halt),
        Break::ReadFault => Status::ReadFault,
    }
}
