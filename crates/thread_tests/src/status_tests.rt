//! How a run by threads ends that can't read its script, finds no heap, or can't write its output.
use crate::playing::{
    FRESH_BYTES, Faults, IMAGE_BYTES, Played, TWO_OBJECTS, image_of, opened, run_on, run_well, same,
};
use disk_model::{MemoryDisk, Pick};
use heap_core::At;
use heap_workers::OpenGate;
use std::alloc::{AllocError, Global};
use std::process::Abort;
use std::sync::Wait;
use std::test::Fail;
use std::thread::Threads;
use thread_program::Status;

/// Two sessions, each of which commits a write into an object of its own.
const ONE_EACH: &str =
    "1 begin\n1 root 0\n1 get 0 0 1\n1 put 1 0 5\n1 commit\n2 begin\n2 root 0\n2 get 0 1 1\n2 put 1 0 6\n2 commit\n";

/// How many lines its events have.
const LINES: u64 = 12;

const GRAPH: &str = "graph 3\n0: @1 @2 - -\n1: 5\n2: 6\n";

/// A source and a sink whose call of this number fails.
fn failing(source: u64, sink: u64) -> Faults {
    Faults {
        disk: 0,
        source,
        sink,
        pick: Pick::Newest,
    }
}

/// Runs a command with a source whose call of that number fails, and compares its status, and that it wrote nothing, to the sink or to the disk.
fn expect_untouched<R: Threads + Wait + Abort + Sync>(
    rt: &R,
    alloc: Global,
    (line, script): (&str, &str),
    (image, read): (&[u8], u64),
    status: Status,
) -> Result<(), Fail> {
    let faults = failing(read, 0);
    let (played, left) = run_on(rt, alloc, (line, script), (image, &faults), &OpenGate)?;
    let found = (played.status, played.text(), left.contents() == image);
    same(
        rt,
        (line, script, found),
        (line, script, (status, "", true)),
    );
    Ok(())
}

/// Command lines that play a script by threads.
const LINES_OF_THREADS: [&str; 3] = [
    "heap threads",
    "heap threads --fresh 1",
    "heap threads --tries 2 --fresh 1",
];

/// Scripts, the call of their source that fails, if one does, and how a run ends that can't read them. The first call gives the script, and the
/// second one says that it has ended. For a bad script the first bad line is reported.
const UNREAD: [(&str, u64, Status); 8] = [
    (ONE_EACH, 1, Status::ReadFault),
    (ONE_EACH, 2, Status::ReadFault),
    ("1 begin\n1 root 0\n1 pu", 0, Status::Script { line: 3 }),
    ("1 begin\n33 root 0\n", 0, Status::Script { line: 2 }),
    ("0 begin\n", 0, Status::Script { line: 1 }),
    ("\n\nforce 1\n", 0, Status::Script { line: 3 }),
    ("flip\n1 scan\n2 pu\n", 0, Status::Script { line: 2 }),
    (" 1 begin\n", 0, Status::Script { line: 1 }),
];

#[test]
fn a_script_that_is_not_read_leaves_all(rt: HostRuntime) -> Result<(), Fail> {
    let image = image_of(&rt, rt.alloc(), TWO_OBJECTS)?;
    for (script, read, status) in &UNREAD {
        for line in &LINES_OF_THREADS {
            let words = (*line, *script);
            expect_untouched(&rt, rt.alloc(), words, (&image, *read), *status)?;
        }
    }
    Ok(())
}

/// A place in the image, and another byte for it.
type Change = (usize, u8);

/// Command lines, what is changed of the image, and how a run ends that finds no command, too small a disk, no heap, or a damaged one.
const REFUSED: [(&str, &[Change], Status); 15] = [
    ("heap threads 1", &[], Status::Usage),
    ("heap threads --tries", &[], Status::Usage),
    ("heap threads --tries 0", &[], Status::Usage),
    ("heap threads --tries 1000001", &[], Status::Usage),
    ("heap threads --tries 2 --tries 2", &[], Status::Usage),
    ("heap threads --fresh 0", &[], Status::Usage),
    ("heap threads --fresh 16385", &[], Status::Usage),
    ("heap threads --stop 1", &[], Status::Usage),
    ("heap threads --again 1", &[], Status::Usage),
    (
        "heap threads --fresh 1",
        &[],
        Status::TooSmall {
            size: IMAGE_BYTES as u64,
            need: FRESH_BYTES as u64,
        },
    ),
    // The gate of the superblock, its letters, its limits, and its zeros.
    ("heap threads", &[(0, 0)], Status::NotHeap),
    ("heap threads", &[(1, b'S')], Status::NotHeap),
    ("heap threads", &[(12, 0)], Status::NotHeap),
    ("heap threads", &[(63, 1)], Status::NotHeap),
    // The length of the log's first batch.
    (
        "heap threads",
        &[(65, 255)],
        Status::Damaged { at: At::Batch(0) },
    ),
];

/// The image with these bytes changed.
fn spoiled(alloc: Global, image: &[u8], changes: &[Change]) -> Result<Vec<u8>, AllocError> {
    let mut bytes = image.to_vec(alloc)?;
    for (at, byte) in changes {
        if let Some(place) = bytes.get_mut(*at) {
            *place = *byte;
        }
    }
    Ok(bytes)
}

#[test]
fn what_is_refused_is_left(rt: HostRuntime) -> Result<(), Fail> {
    let alloc = rt.alloc();
    let image = image_of(&rt, alloc, TWO_OBJECTS)?;
    for (line, changes, status) in &REFUSED {
        let bytes = spoiled(alloc, &image, changes)?;
        expect_untouched(&rt, alloc, (*line, ONE_EACH), (&bytes, 0), *status)?;
    }
    Ok(())
}

/// All events were made: both commits are there, and the graph.
fn expect_made<R: Threads + Wait + Abort + Sync>(
    rt: &R,
    alloc: Global,
    piece: u64,
    left: MemoryDisk,
) -> Result<(), Fail> {
    let (found, _) = run_well(rt, alloc, "heap graph", "", left.contents())?;
    let commits = opened(rt, alloc, left).commits();
    same(rt, (piece, found.text(), commits), (piece, GRAPH, 3));
    Ok(())
}

/// A run whose sink failed was refused and wrote no whole graph, and another one is done and did. Returns whether it was refused.
fn was_refused(rt: &impl Abort, piece: u64, played: &Played) -> bool {
    let text = played.text();
    let refused = played.status == Status::WriteFault;
    let want = if refused {
        (Status::WriteFault, false, false)
    } else {
        (Status::Done, true, true)
    };
    let found = (played.status, text.ends_with(GRAPH), text.contains(GRAPH));
    same(rt, (piece, found), (piece, want));
    refused
}

/// Runs a script whose output is refused at one piece, and returns whether it was.
fn check_refused<R: Threads + Wait + Abort + Sync>(
    rt: &R,
    alloc: Global,
    image: &[u8],
    script: &str,
    piece: u64,
) -> Result<bool, Fail> {
    let words = ("heap threads", script);
    let faults = failing(0, piece);
    let (played, left) = run_on(rt, alloc, words, (image, &faults), &OpenGate)?;
    expect_made(rt, alloc, piece, left)?;
    Ok(was_refused(rt, piece, &played))
}

/// More pieces than the output has.
const MOST_PIECES: u64 = 100;

/// The same sessions, which only seal: what they have sealed is forced by the event that ends the run.
const SEALED: &str =
    "1 begin\n1 root 0\n1 get 0 0 1\n1 put 1 0 5\n1 seal\n2 begin\n2 root 0\n2 get 0 1 1\n2 put 1 0 6\n2 seal\n";

/// The lines of that, with the force.
const SEALED_LINES: u64 = 11;

/// How many pieces of a script's output may be refused.
fn pieces_refused<R: Threads + Wait + Abort + Sync>(
    rt: &R,
    alloc: Global,
    image: &[u8],
    script: &str,
) -> Result<u64, Fail> {
    let mut refused = 0u64;
    for piece in 1..MOST_PIECES {
        if !check_refused(rt, alloc, image, script, piece)? {
            break;
        }
        refused = piece;
    }
    Ok(refused)
}

#[test]
fn a_sink_that_fails_finds_all_events_made(rt: HostRuntime) -> Result<(), Fail> {
    let alloc = rt.alloc();
    let image = image_of(&rt, alloc, TWO_OBJECTS)?;
    for (script, lines) in [(ONE_EACH, LINES), (SEALED, SEALED_LINES)] {
        let refused = pieces_refused(&rt, alloc, &image, script)?;
        let is_all = lines < refused && refused < MOST_PIECES - 1;
        same(&rt, (refused, is_all), (refused, true));
    }
    Ok(())
}
