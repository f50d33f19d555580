//! The program over memory: how the tests run it, on disks that stop or fail and with streams that fail.
use command_words::{Command, CommandError, read_command};
use disk_model::{Disk, MemoryDisk, Pick};
use heap_io::{MemorySink, MemorySource};
use heap_program::{Status, run_alone};
use std::alloc::{AllocError, Global};
use std::fmt::Debug;
use std::process::Abort;
use std::str;

/// The bytes of a heap of one page a space.
pub const DISK_BYTES: usize = 1_050_752;

pub const RECORD_BYTES: usize = 4_194_304;

const SINK_BYTES: usize = 65_536;

pub const PICKS: [Pick; 4] = [Pick::Synced, Pick::Newest, Pick::AllOnes, Pick::AllOpen];

pub const ONE_COMMIT: &str = "1 begin\n1 root 0\n1 put 0 0 7\n1 commit\n";

/// A run that is over: its status and what it wrote.
#[derive(Drop)]
pub struct Played {
    pub status: Status,
    pub output: Vec<u8>,
}

fn words_of(alloc: Global, line: &str) -> Result<Vec<String>, AllocError> {
    let mut words = Vec::new(alloc);
    for word in line.split_whitespace() {
        words.push(String::from_str(alloc, word)?)?;
    }
    Ok(words)
}

/// A list of one call, which is to fail, or of none.
fn list_of(alloc: Global, call: Option<u64>) -> Result<Vec<u64>, AllocError> {
    let mut calls = Vec::new(alloc);
    if let Some(call) = call {
        calls.push(call)?;
    }
    Ok(calls)
}

/// A disk with these bytes, whose write or sync of that number fails.
pub fn disk_of(
    alloc: Global,
    bytes: Vec<u8>,
    pick: Pick,
    room: usize,
    fails: Option<u64>,
) -> Result<MemoryDisk, AllocError> {
    let fails = list_of(alloc, fails)?;
    MemoryDisk::of(alloc, bytes, pick, room, fails, Vec::new(alloc))
}

pub fn make_disk(alloc: Global, bytes: usize, pick: Pick) -> Result<MemoryDisk, AllocError> {
    let zeros = vec![in alloc; 0u8; bytes]?;
    disk_of(alloc, zeros, pick, RECORD_BYTES, None)
}

/// Runs the program alone, on a command line that is no `threads` command.
fn run_words<D: Disk + Drop>(
    alloc: Global,
    words: &[String],
    disk: D,
    source: &mut MemorySource,
    sink: &mut MemorySink,
) -> Result<(Status, D), AllocError> {
    match read_command(alloc, words) {
        Ok(Command::Threads { .. }) | Err(CommandError::NoMemory) => Err(AllocError),
        _ => Ok(run_alone(alloc, words, disk, source, sink)),
    }
}

fn source_of(alloc: Global, script: &[u8], fails: Option<u64>) -> Result<MemorySource, AllocError> {
    Ok(MemorySource::of(script.to_vec(alloc)?, list_of(alloc, fails)?))
}

fn sink_of(alloc: Global, fails: Option<u64>) -> Result<MemorySink, AllocError> {
    MemorySink::of(alloc, SINK_BYTES, list_of(alloc, fails)?)
}

/// Runs the words of a command line, and takes what was written.
fn run_to<D: Disk + Drop>(
    alloc: Global,
    words: &[String],
    disk: D,
    source: &mut MemorySource,
    sink: &mut MemorySink,
) -> Result<(Played, D), AllocError> {
    let (status, disk) = run_words(alloc, words, disk, source, sink)?;
    let output = sink.bytes().to_vec(alloc)?;
    Ok((Played { status, output }, disk))
}

/// Runs a command line on a disk, with a source and a sink whose call of that number fails.
pub fn run_failing<D: Disk + Drop>(
    alloc: Global,
    line: &str,
    script: &[u8],
    disk: D,
    (read, write): (Option<u64>, Option<u64>),
) -> Result<(Played, D), AllocError> {
    let words = words_of(alloc, line)?;
    let mut source = source_of(alloc, script, read)?;
    let mut sink = sink_of(alloc, write)?;
    run_to(alloc, &words, disk, &mut source, &mut sink)
}

/// Runs it with streams that don't fail.
pub fn play_on(
    alloc: Global,
    line: &str,
    script: &str,
    disk: MemoryDisk,
) -> Result<(Played, MemoryDisk), AllocError> {
    run_failing(alloc, line, script.as_bytes(), disk, (None, None))
}

/// Runs it on a new disk of that many bytes, which it doesn't give back.
pub fn play(
    alloc: Global,
    line: &str,
    script: &str,
    (bytes, pick): (usize, Pick),
) -> Result<Played, AllocError> {
    let disk = make_disk(alloc, bytes, pick)?;
    Ok(play_on(alloc, line, script, disk)?.0)
}

/// What was printed before a restart, and behind the words that follow it.
pub fn split_restarted(output: &[u8]) -> Option<(&str, &str)> {
    str::from_utf8(output).ok()?.split_once("recovered ")
}

/// Compares what was found. The tests call it, since the proof of an assertion of their own would take each of them longer.
pub fn same<T: PartialEq + Debug + Copy>(rt: &impl Abort, found: T, want: T) {
    assert_eq!(rt; found, want);
}

/// Compares a run's status and what it wrote.
pub fn expect_played(rt: &impl Abort, played: &Played, status: Status, output: &[u8]) {
    same(
        rt,
        (played.status, played.output.as_slice()),
        (status, output),
    );
}
