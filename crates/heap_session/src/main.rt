//! A session with the heap in the current folder, over the standard streams: one line in, its answer out.
#![tactic(auto)]

use disk_file::FileDisk;
use heap_io::{StdSink, StdSource};
use heap_program::Status;
use session_program::serve;
use std::alloc::AllocError;
use std::fmt;
use std::process::ExitCode;

/// The file of the heap, in the current folder.
const HEAP_FILE: &str = "heap.img";

/// How the program ended.
#[derive(Clone, Copy, Debug, PartialEq, Eq)]
enum End {
    /// Another program holds the file, so no session began.
    InUse,
    /// A session ended so.
    Served(Status),
}

impl End {
    /// The exit status of the program: those of a session, and one of its own.
    fn code(&self) -> u8 {
        match self {
            End::InUse => 10,
            End::Served(status) => status.code(),
        }
    }
}

/// The one line that the program writes on standard error.
impl fmt::Display for End {
    fn fmt<W: fmt::Write>(&self, f: &mut fmt::Formatter<W>) -> fmt::Result {
        match self {
            End::InUse => f.write_str("in use"),
            End::Served(status) => write!(f, "{status}"),
        }
    }
}

fn end_of(rt: &HostRuntime) -> Result<End, AllocError> {
    let mut disk = FileDisk::new(rt, String::from_str(rt.alloc(), HEAP_FILE)?);
    if disk.is_in_use() {
        return Ok(End::InUse);
    }
    let mut source = StdSource::new(rt.stdin());
    let mut sink = StdSink::new(rt.stdout());
    let (status, _disk) = serve(rt.alloc(), disk, &mut source, &mut sink);
    Ok(End::Served(status))
}

fn main(rt: HostRuntime) -> ExitCode {
    let end = end_of(&rt).unwrap_or(End::Served(Status::NoMemory));
    if end != End::Served(Status::Done) {
        // If standard error can't be written, nothing is left to report.
        let _ = eprintln!(rt; "{end}");
    }
    ExitCode::from(end.code())
}
