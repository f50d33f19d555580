//! How the tests run the program on disks in memory, and replay what was printed.
use disk_model::{MemoryDisk, Pick};
use heap_core::{Heap, OpenError};
use heap_io::{MemorySink, MemorySource};
use heap_workers::{Gate, OpenGate};
use std::alloc::{AllocError, Global};
use std::fmt::Debug;
use std::process::Abort;
use std::str;
use std::sync::Wait;
use std::thread::Threads;
use thread_program::{Status, run};

/// The command that makes the heap of the tests. Its log is short, since code that is only tried plays slowly on a large one.
const FORMAT: &str = "heap format 4 65536 1";

/// The bytes of its image.
pub const IMAGE_BYTES: usize = 74_048;

/// The bytes of the heap that `--fresh 1` makes.
pub const FRESH_BYTES: usize = 1_050_752;

const RECORD_BYTES: usize = 4_194_304;

const SINK_BYTES: usize = 65_536;

/// A commit of two objects below the root.
pub const TWO_OBJECTS: &str =
    "1 begin\n1 root 0\n1 new 1 1\n1 new 2 1\n1 link 0 0 1\n1 link 0 1 2\n1 commit\n";

/// A run that is over: its status and what it wrote.
#[derive(Drop)]
pub struct Played {
    pub status: Status,
    pub output: Vec<u8>,
}

impl Played {
    /// What it wrote, as text.
    pub fn text(&self) -> &str {
        str::from_utf8(&self.output).unwrap_or("no text")
    }
}

fn words_of(alloc: Global, line: &str) -> Result<Vec<String>, AllocError> {
    let mut words = Vec::new(alloc);
    for word in line.split_whitespace() {
        words.push(String::from_str(alloc, word)?)?;
    }
    Ok(words)
}

/// What fails in a run: of each of these the call of this number, or none where it is 0.
#[derive(Clone, Copy)]
pub struct Faults {
    pub disk: u64,
    pub source: u64,
    pub sink: u64,
    /// What a crash leaves of what the disk was asked to write.
    pub pick: Pick,
}

pub const NO_FAULTS: Faults = Faults {
    disk: 0,
    source: 0,
    sink: 0,
    pick: Pick::Newest,
};

/// A list of one call, which is to fail, or of none.
fn list_of(alloc: Global, call: u64) -> Result<Vec<u64>, AllocError> {
    let mut calls = Vec::new(alloc);
    if call > 0 {
        calls.push(call)?;
    }
    Ok(calls)
}

/// A disk with these bytes, one of whose writes and syncs may fail.
fn disk_of(alloc: Global, bytes: &[u8], faults: &Faults) -> Result<MemoryDisk, AllocError> {
    let bytes = bytes.to_vec(alloc)?;
    let fails = list_of(alloc, faults.disk)?;
    let none = Vec::new(alloc);
    MemoryDisk::of(alloc, bytes, faults.pick, RECORD_BYTES, fails, none)
}

/// Runs the program. It has no clause, so that the proofs of its callers don't see what is promised of a run.
fn run_words<R: Threads + Wait + Sync, G: Gate + Sync>(
    rt: &R,
    alloc: Global,
    words: &[String],
    disk: MemoryDisk,
    (source, sink): (&mut MemorySource, &mut MemorySink),
    gate: &G,
) -> (Status, MemoryDisk) {
    run(rt, alloc, words, disk, source, sink, gate)
}

/// Opens a heap, also without a clause.
fn open(alloc: Global, disk: MemoryDisk) -> Result<Heap<MemoryDisk>, (OpenError, MemoryDisk)> {
    Heap::open(alloc, disk)
}

/// Opens the heap on a disk.
pub fn opened(rt: &impl Abort, alloc: Global, disk: MemoryDisk) -> Heap<MemoryDisk> {
    match open(alloc, disk) {
        Ok(heap) => heap,
        Err(_) => panic!(rt; "not opened"),
    }
}

/// Runs the program on a disk with these bytes, with these faults.
pub fn run_on<R: Threads + Wait + Sync, G: Gate + Sync>(
    rt: &R,
    alloc: Global,
    (line, script): (&str, &str),
    (image, faults): (&[u8], &Faults),
    gate: &G,
) -> Result<(Played, MemoryDisk), AllocError> {
    let words = words_of(alloc, line)?;
    let script = script.as_bytes().to_vec(alloc)?;
    let mut source = MemorySource::of(script, list_of(alloc, faults.source)?);
    let mut sink = MemorySink::of(alloc, SINK_BYTES, list_of(alloc, faults.sink)?)?;
    let disk = disk_of(alloc, image, faults)?;
    let streams = (&mut source, &mut sink);
    let (status, disk) = run_words(rt, alloc, &words, disk, streams, gate);
    let output = sink.bytes().to_vec(alloc)?;
    Ok((Played { status, output }, disk))
}

/// Runs it where nothing fails and no worker waits at the gate.
pub fn run_well<R: Threads + Wait + Sync>(
    rt: &R,
    alloc: Global,
    line: &str,
    script: &str,
    image: &[u8],
) -> Result<(Played, MemoryDisk), AllocError> {
    run_on(rt, alloc, (line, script), (image, &NO_FAULTS), &OpenGate)
}

/// The image of a new heap on which a script was played.
pub fn image_of<R: Threads + Wait + Sync>(
    rt: &R,
    alloc: Global,
    script: &str,
) -> Result<Vec<u8>, AllocError> {
    let zeros = vec![in alloc; 0u8; IMAGE_BYTES]?;
    let (_, made) = run_well(rt, alloc, FORMAT, "", &zeros)?;
    let (_, played) = run_well(rt, alloc, "heap play", script, made.contents())?;
    played.contents().to_vec(alloc)
}

/// The events that were printed, one on a line.
pub fn events_of(alloc: Global, output: &str) -> Result<String, AllocError> {
    let mut events = String::new(alloc);
    for line in output.lines() {
        if let Some((event, _)) = line.split_once(" -> ") {
            writeln!(events, "{event}")?;
        }
    }
    Ok(events)
}

/// The printed lines of one session's events, of which `start` is the number and a blank.
pub fn lines_of_session(alloc: Global, output: &str, start: &str) -> Result<String, AllocError> {
    let mut lines = String::new(alloc);
    for line in output.lines() {
        if line.starts_with(start) && line.contains(" -> ") {
            writeln!(lines, "{line}")?;
        }
    }
    Ok(lines)
}

/// How many printed lines have this part.
pub fn count_lines(output: &str, part: &str) -> usize {
    let mut count: usize = 0;
    for line in output.lines() {
        if line.contains(part) {
            count = count.saturating_add(1);
        }
    }
    count
}

/// Whether the printed events, played alone on an equal image, write the same and leave the same bytes.
fn plays_again<R: Threads + Wait + Sync>(
    rt: &R,
    alloc: Global,
    image: &[u8],
    played: &Played,
    left: &MemoryDisk,
) -> Result<bool, AllocError> {
    let events = events_of(alloc, played.text())?;
    let (again, disk) = run_well(rt, alloc, "heap play", events.as_str(), image)?;
    Ok(
        again.status == played.status
            && again.output.as_slice() == played.output.as_slice()
            && disk.contents() == left.contents(),
    )
}

/// They do, of the run of that number.
pub fn expect_again<R: Threads + Wait + Abort + Sync>(
    rt: &R,
    alloc: Global,
    image: &[u8],
    (number, played): (u64, &Played),
    left: &MemoryDisk,
) -> Result<(), AllocError> {
    let again = plays_again(rt, alloc, image, played, left)?;
    same(rt, (number, again), (number, true));
    Ok(())
}

/// Compares what was found. The tests call it, since the proof of an assertion of their own would take each of them longer.
pub fn same<T: PartialEq + Debug + Copy>(rt: &impl Abort, found: T, want: T) {
    assert_eq!(rt; found, want);
}
