//! How the tests play a script.
use command_words::{Command, CommandError, read_command};
use disk_model::{MemoryDisk, Pick};
use heap_io::{MemorySink, MemorySource};
use heap_program::{Status, run_alone};
use std::alloc::{AllocError, Global};
use std::fmt::Debug;
use std::process::Abort;

/// The bytes of the disks that a play makes a heap on: enough for sixty-four pages a space.
const HEAP_BYTES: usize = 1_183_808;

/// The bytes of an image of sixty-four pages a space with a log of 65,536 bytes.
const IMAGE_BYTES: usize = 200_768;

const RECORD_BYTES: usize = 4_194_304;

const SINK_BYTES: usize = 262_144;

pub const PICKS: [Pick; 4] = [Pick::Synced, Pick::Newest, Pick::AllOnes, Pick::AllOpen];

/// A run that is over: its status and what it wrote.
#[derive(Drop)]
pub struct Played {
    pub status: Status,
    pub output: Vec<u8>,
}

fn words_of(alloc: Global, line: &str) -> Result<Vec<String>, AllocError> {
    let mut words = Vec::new(alloc);
    for word in line.split_whitespace() {
        words.push(String::from_str(alloc, word)?)?;
    }
    Ok(words)
}

/// A disk with these bytes.
pub fn disk_of(alloc: Global, bytes: Vec<u8>, pick: Pick) -> Result<MemoryDisk, AllocError> {
    let none = Vec::new(alloc);
    MemoryDisk::of(alloc, bytes, pick, RECORD_BYTES, none, Vec::new(alloc))
}

/// The image that a command leaves: a `format`, or a script on another image.
pub fn image_of(
    alloc: Global,
    line: &str,
    script: &str,
    image: Vec<u8>,
) -> Result<Vec<u8>, AllocError> {
    let (_, disk) = play_on(alloc, line, script, disk_of(alloc, image, Pick::Newest)?)?;
    disk.contents().to_vec(alloc)
}

/// The image of an empty heap, by the command that makes it. Its log is short, since code that is only tried plays slowly on a large one.
pub fn new_image(alloc: Global, line: &str) -> Result<Vec<u8>, AllocError> {
    image_of(alloc, line, "", vec![in alloc; 0u8; IMAGE_BYTES]?)
}

/// Runs the program alone, on a command line that is no `threads` command.
fn run_words(
    alloc: Global,
    words: &[String],
    disk: MemoryDisk,
    source: &mut MemorySource,
    sink: &mut MemorySink,
) -> Result<(Status, MemoryDisk), AllocError> {
    match read_command(alloc, words) {
        Ok(Command::Threads { .. }) | Err(CommandError::NoMemory) => Err(AllocError),
        _ => Ok(run_alone(alloc, words, disk, source, sink)),
    }
}

/// Runs the words of a command line, and takes what was written.
fn run_to(
    alloc: Global,
    words: &[String],
    disk: MemoryDisk,
    source: &mut MemorySource,
    sink: &mut MemorySink,
) -> Result<(Played, MemoryDisk), AllocError> {
    let (status, disk) = run_words(alloc, words, disk, source, sink)?;
    let output = sink.bytes().to_vec(alloc)?;
    Ok((Played { status, output }, disk))
}

/// Plays a script by a command on a disk.
pub fn play_on(
    alloc: Global,
    line: &str,
    script: &str,
    disk: MemoryDisk,
) -> Result<(Played, MemoryDisk), AllocError> {
    let words = words_of(alloc, line)?;
    let mut source = MemorySource::of(script.as_bytes().to_vec(alloc)?, Vec::new(alloc));
    let mut sink = MemorySink::of(alloc, SINK_BYTES, Vec::new(alloc))?;
    run_to(alloc, &words, disk, &mut source, &mut sink)
}

/// Plays a script by a command on a new disk, and returns the disk too.
pub fn play_new(
    alloc: Global,
    line: &str,
    script: &str,
    pick: Pick,
) -> Result<(Played, MemoryDisk), AllocError> {
    let zeros = vec![in alloc; 0u8; HEAP_BYTES]?;
    play_on(alloc, line, script, disk_of(alloc, zeros, pick)?)
}

/// Plays a script by a command on a new disk.
pub fn play(alloc: Global, line: &str, script: &str, pick: Pick) -> Result<Played, AllocError> {
    Ok(play_new(alloc, line, script, pick)?.0)
}

/// Compares what was found. The tests call it, since the proof of an assertion of their own would take each of them longer.
pub fn same<T: PartialEq + Debug + Copy>(rt: &impl Abort, found: T, want: T) {
    assert_eq!(rt; found, want);
}

/// Compares what a run wrote that was done.
pub fn expect_done(rt: &impl Abort, played: &Played, output: &str) {
    same(
        rt,
        (played.status, played.output.as_slice()),
        (Status::Done, output.as_bytes()),
    );
}
