//! Sessions over memory.
use crate::pieces::Pieces;
use disk_model::{Disk, FuseDisk, MemoryDisk, Pick};
use heap_io::{MemorySink, MemorySource, Source};
use session_program::{Heap, Status, serve};
use std::alloc::{AllocError, Global};
use std::fmt::Debug;
use std::process::Abort;
use std::test::Fail;

const DISK_BYTES: usize = 6_272;

const RECORD_BYTES: usize = 65_536;

const SINK_BYTES: usize = 65_536;

/// How a session ended and what it wrote.
#[derive(Drop)]
struct Outcome {
    status: Status,
    output: Vec<u8>,
}

fn zeros(alloc: Global) -> Result<MemoryDisk, AllocError> {
    let zeros = vec![in alloc; 0u8; DISK_BYTES]?;
    MemoryDisk::of(
        alloc,
        zeros,
        Pick::Newest,
        RECORD_BYTES,
        Vec::new(alloc),
        Vec::new(alloc),
    )
}

/// A disk with an empty heap.
fn heap_disk(alloc: Global) -> Result<MemoryDisk, AllocError> {
    match Heap::format(zeros(alloc)?, 1, 4096, 1) {
        Ok(disk) | Err((_, disk)) => Ok(disk),
    }
}

/// A list of one call, which is to fail, or of none.
fn list_of(alloc: Global, call: Option<u64>) -> Result<Vec<u64>, AllocError> {
    let mut calls = Vec::new(alloc);
    if let Some(call) = call {
        calls.push(call)?;
    }
    Ok(calls)
}

/// A source of these bytes, which gives that many at once and whose call of that number fails.
fn pieces(
    alloc: Global,
    input: &[u8],
    most: usize,
    fails: Option<u64>,
) -> Result<Pieces, AllocError> {
    let inner = MemorySource::of(input.to_vec(alloc)?, list_of(alloc, fails)?);
    Ok(Pieces { inner, most })
}

/// Serves a session, and takes what was written.
fn serve_to<D: Disk + Drop>(
    alloc: Global,
    disk: D,
    source: &mut Pieces,
    sink: &mut MemorySink,
) -> Result<(Outcome, D), AllocError> {
    let (status, disk) = serve(alloc, disk, source, sink);
    let output = sink.bytes().to_vec(alloc)?;
    Ok((Outcome { status, output }, disk))
}

/// Serves a session whose sink fails at the call of that number.
fn serve_from<D: Disk + Drop>(
    alloc: Global,
    disk: D,
    source: &mut Pieces,
    fails: Option<u64>,
) -> Result<(Outcome, D), AllocError> {
    let mut sink = MemorySink::of(alloc, SINK_BYTES, list_of(alloc, fails)?)?;
    serve_to(alloc, disk, source, &mut sink)
}

/// The bytes that a source has left, of 128 at most.
fn left_of(alloc: Global, source: &mut Pieces) -> Result<Vec<u8>, AllocError> {
    let mut left = vec![in alloc; 0u8; 128]?;
    let count = source.inner.take(&mut left).unwrap_or(0);
    left.truncate(count);
    Ok(left)
}

/// Compares what was found. The tests call it, since the proof of an assertion of their own would take each of them longer.
fn same<T: PartialEq + Debug + Copy>(rt: &impl Abort, found: T, want: T) {
    assert_eq!(rt; found, want);
}

/// A session: its input, which call of the source and which one of the sink fails, how it ends, and what it writes.
#[derive(Clone, Copy)]
struct Session<'a> {
    input: &'a [u8],
    fails: (Option<u64>, Option<u64>),
    status: Status,
    output: &'a str,
}

/// Serves it from a source that gives that many bytes at once, and returns the disk that it leaves.
fn check<D: Disk + Drop>(
    rt: &impl Abort,
    alloc: Global,
    disk: D,
    most: usize,
    session: &Session<'_>,
) -> Result<D, AllocError> {
    let mut source = pieces(alloc, session.input, most, session.fails.0)?;
    let (served, disk) = serve_from(alloc, disk, &mut source, session.fails.1)?;
    same(
        rt,
        (served.status, served.output.as_slice()),
        (session.status, session.output.as_bytes()),
    );
    Ok(disk)
}

const INPUT: &[u8] =
    b"1 begin\n\n1 root 0\n1 jump\n1 put 0 0 7\n1 commit\n2 begin\n2 root 0\n2 len 0";

const WHOLE: Session<'static> = Session {
    input: INPUT,
    fails: (None, None),
    status: Status::Done,
    output: "1 begin -> begun 1\n1 root 0 -> done\nscript fault at line 4\n1 put 0 0 7 -> done\n1 seal -> sealed 1\nforce -> durable 1\n2 begin -> begun 2\n2 root 0 -> done\n2 len 0 -> len 4\n2 abort -> aborted\nforce -> durable 1\n",
};

/// Sessions with an empty heap, and how many bytes their sources give at once.
const SESSIONS: [(&[usize], Session<'static>); 7] = [
    // Pieces of any size give the same answers.
    (&[1, 2, 3, 7, 8, 64, 65_536], WHOLE),
    // No line has no answer.
    (
        &[64],
        Session {
            input: b"",
            fails: (None, None),
            status: Status::Done,
            output: "",
        },
    ),
    (
        &[2],
        Session {
            input: b"\n\n\n",
            fails: (None, None),
            status: Status::Done,
            output: "",
        },
    ),
    // The source fails when the second line is asked for, and that ends the session.
    (
        &[8],
        Session {
            input: INPUT,
            fails: (Some(2), None),
            status: Status::ReadFault,
            output: "1 begin -> begun 1\n",
        },
    ),
    // A sink that fails ends it.
    (
        &[64],
        Session {
            input: INPUT,
            fails: (None, Some(3)),
            status: Status::WriteFault,
            output: "1 begin -> begun 1\n1 root 0 -> done\n",
        },
    ),
    // The heap is closed and opened again if nothing has to be done before, and not otherwise. Commits and lines are counted anew.
    (
        &[1, 5, 64],
        Session {
            input: b"reopen\n1 begin\nreopen\n1 root 0\n1 put 0 0 7\n1 seal\nreopen\nforce\nreopen\n1 get 0 0 1\n2 begin\n2 root 0\n2 get 0 0 1\n2 seal\n1 jump\nforce\nreopen",
            fails: (None, None),
            status: Status::Done,
            output: "reopen -> closed\n1 begin -> begun 1\nreopen -> unfinished\n1 root 0 -> done\n1 put 0 0 7 -> done\n1 seal -> sealed 1\nreopen -> unfinished\nforce -> durable 1\nreopen -> closed\n1 get 0 0 1 -> notactive\n2 begin -> begun 2\n2 root 0 -> done\n2 get 0 0 1 -> int 7\n2 seal -> sealed 1\nscript fault at line 6\nforce -> durable 1\nreopen -> closed\n",
        },
    ),
    // The sink fails at what is said of the closing: the session ends, and the heap is not opened again.
    (
        &[64],
        Session {
            input: b"reopen\n1 begin\n",
            fails: (None, Some(1)),
            status: Status::WriteFault,
            output: "",
        },
    ),
];

fn check_sizes(
    rt: &impl Abort,
    alloc: Global,
    sizes: &[usize],
    session: &Session<'_>,
) -> Result<(), AllocError> {
    for most in sizes {
        check(rt, alloc, heap_disk(alloc)?, *most, session)?;
    }
    Ok(())
}

#[test]
fn sessions_with_an_empty_heap_are_answered(rt: HostRuntime) -> Result<(), Fail> {
    for (sizes, session) in &SESSIONS {
        check_sizes(&rt, rt.alloc(), sizes, session)?;
    }
    Ok(())
}

/// What is behind the first eight bytes of the input.
const BEHIND_A_PIECE: &[u8] =
    b"\n1 root 0\n1 jump\n1 put 0 0 7\n1 commit\n2 begin\n2 root 0\n2 len 0";

/// The sink fails at the first answer: by then no more than the piece with that line was taken.
#[test]
fn a_line_is_answered_before_more_is_taken(rt: HostRuntime) -> Result<(), Fail> {
    let alloc = rt.alloc();
    let mut source = pieces(alloc, INPUT, 8, None)?;
    let served = serve_from(alloc, heap_disk(alloc)?, &mut source, Some(1))?.0;
    let left = left_of(alloc, &mut source)?;
    same(
        &rt,
        (served.status, left.as_slice()),
        (Status::WriteFault, BEHIND_A_PIECE),
    );
    Ok(())
}

/// What a session does on a disk that stops before its first write.
const STOPPED: Session<'static> = Session {
    input: INPUT,
    fails: (None, None),
    status: Status::DiskFault,
    output: "1 begin -> begun 1\n1 root 0 -> done\nscript fault at line 4\n1 put 0 0 7 -> done\n1 seal -> sealed 1\nforce -> stopped\n",
};

#[test]
fn a_disk_that_stops_ends_the_session(rt: HostRuntime) -> Result<(), Fail> {
    let alloc = rt.alloc();
    let disk = FuseDisk::new(heap_disk(alloc)?, 0);
    check(&rt, alloc, disk, 64, &STOPPED)?;
    Ok(())
}

/// What it does on a disk without a heap.
const NO_HEAP: Session<'static> = Session {
    input: INPUT,
    fails: (None, None),
    status: Status::NotHeap,
    output: "",
};

#[test]
fn a_disk_without_a_heap_is_told(rt: HostRuntime) -> Result<(), Fail> {
    check(&rt, rt.alloc(), zeros(rt.alloc())?, 64, &NO_HEAP)?;
    Ok(())
}

/// What one session committed the next one finds.
const NEXT: Session<'static> = Session {
    input: b"3 begin\n3 root 0\n3 get 0 0 1\n3 abort\n",
    fails: (None, None),
    status: Status::Done,
    output: "3 begin -> begun 3\n3 root 0 -> done\n3 get 0 0 1 -> int 7\n3 abort -> aborted\nforce -> durable 0\n",
};

#[test]
fn sessions_follow_one_another(rt: HostRuntime) -> Result<(), Fail> {
    let alloc = rt.alloc();
    let disk = check(&rt, alloc, heap_disk(alloc)?, 5, &WHOLE)?;
    check(&rt, alloc, disk, 64, &NEXT)?;
    Ok(())
}

/// A line that is too long is one line, whatever follows it.
#[test]
fn a_line_that_is_too_long_is_one_line(rt: HostRuntime) -> Result<(), Fail> {
    let alloc = rt.alloc();
    let mut input = vec![in alloc; b'x'; 1_048_577]?;
    input.extend_from_slice(b"xx\n1 begin\n1 jump")?;
    let session = Session {
        input: &input,
        fails: (None, None),
        status: Status::Done,
        output: "script fault at line 1\n1 begin -> begun 1\nscript fault at line 3\n1 abort -> aborted\nforce -> durable 0\n",
    };
    check(&rt, alloc, heap_disk(alloc)?, 65_536, &session)?;
    Ok(())
}
