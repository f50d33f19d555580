//! The stable heap as a program: `thread_program::run` on the words of the command line, the standard streams and the file of the heap.
#![tactic(auto)]

use disk_file::FileDisk;
use heap_io::{StdSource, WatchedSink};
use heap_program::Status;
use heap_workers::OpenGate;
use std::alloc::AllocError;
use std::env::{self, Env};
use std::io;
use std::process::ExitCode;
use std::sync::Wait;
use std::thread::Threads;
use thread_program::run;

/// The file of the heap, in the current folder.
const HEAP_FILE: &str = "heap.img";

/// The words of the command line, or the status if they can't be read: one that is no text is no word of the grammar.
fn command_line(rt: &(impl Env + AllocGlobal)) -> Result<Vec<String>, Status> {
    match env::args(rt) {
        Ok(args) => Ok(args.collect(rt.alloc()).map_err(|_| Status::NoMemory)?),
        Err(e) if e.kind() == io::ErrorKind::OutOfMemory => Err(Status::NoMemory),
        Err(_) => Err(Status::Usage),
    }
}

/// Runs the program with the process's streams and files. `main` alone has the runtime as one that starts threads, so it hands it on as that too.
fn status_of<R: Threads + Wait + Sync>(
    rt: &HostRuntime,
    threads: &R,
) -> Result<Status, AllocError> {
    let words = match command_line(rt) {
        Ok(words) => words,
        Err(status) => return Ok(status),
    };
    let disk = FileDisk::new(rt, String::from_str(rt.alloc(), HEAP_FILE)?);
    let mut source = StdSource::new(rt.stdin());
    let mut sink = WatchedSink::new(rt.stdout(), rt.stderr());
    let (status, _disk) = run(
        threads,
        rt.alloc(),
        &words,
        disk,
        &mut source,
        &mut sink,
        &OpenGate,
    );
    Ok(status)
}

fn main(rt: HostRuntime) -> ExitCode {
    let status = status_of(&rt, &rt).unwrap_or(Status::NoMemory);
    if status != Status::Done {
        // If standard error can't be written, nothing is left to report.
        let _ = eprintln!(rt; "{status}");
    }
    ExitCode::from(status.code())
}
