//! A heap that is opened from an image whose log ends inside a transaction: what that wrote is taken back, wherever the
//! opening stops.
ghost use Rattle.std.specs.Prelude.{◌≡◌, None};
ghost use Rattle.heap_core.specs.HeapState.{failed_at};

use disk_model::{Disk, FuseDisk, MemoryDisk, Pick};
use gated_log::{Log, LogError};
use graph_model::{Event, Reply};
use heap_core::{GraphError, Heap, OpenError};
use log_records::Record;
use std::alloc::{AllocError, Global};
use std::fmt::Debug;
use std::process::Abort;
use std::test::Fail;

const DISK_BYTES: usize = 8192;

const RECORD_BYTES: usize = 65_536;

const LOG_AT: u64 = 64;

pub const LOG_BYTES: u32 = 1024;

pub const PICKS: [Pick; 4] = [Pick::Synced, Pick::Newest, Pick::AllOnes, Pick::AllOpen];

/// The writes and syncs of an opening that takes writes back.
const OPENING_CALLS: u64 = 4;

/// Transaction 1 is committed, and of transaction 2 two writes are on the disk.
static EVENTS: [Event; 9] = [
    Event::Begin { s: 1 },
    Event::Root { s: 1, h: 0 },
    Event::Put {
        s: 1,
        h: 0,
        i: 0,
        v: 7,
    },
    Event::Seal { s: 1 },
    Event::Begin { s: 1 },
    Event::Root { s: 1, h: 0 },
    Event::Put {
        s: 1,
        h: 0,
        i: 0,
        v: 8,
    },
    Event::Put {
        s: 1,
        h: 0,
        i: 1,
        v: 9,
    },
    Event::Force,
];

/// What takes them back: null, and the word of the number 7.
const ROLLBACK: [Record; 3] = [
    Record::Undo {
        t: 2,
        object: 0,
        field: 1,
        word: 0,
    },
    Record::Undo {
        t: 2,
        object: 0,
        field: 0,
        word: 29,
    },
    Record::End { t: 2 },
];

const GRAPH: &str = "graph 1\n0: 7 - - -\n";

pub fn make_disk(alloc: Global, pick: Pick) -> Result<MemoryDisk, AllocError> {
    let zeros = vec![in alloc; 0u8; DISK_BYTES]?;
    MemoryDisk::of(
        alloc,
        zeros,
        pick,
        RECORD_BYTES,
        Vec::new(alloc),
        Vec::new(alloc),
    )
}

pub fn open<D: Disk + Drop>(rt: &impl Abort, alloc: Global, disk: D) -> Heap<D>
    ensures { failed_at result ≡ None }
{
    match Heap::open(alloc, disk) {
        Ok(heap) => heap,
        Err((e, _)) => panic!(rt; "not opened: {e:?}"),
    }
}

/// Compares what was found.
pub fn compare<T: PartialEq + Debug + Copy>(rt: &impl Abort, found: T, want: T) {
    assert_eq!(rt; found, want);
}

/// Makes an empty heap of that many pages a space.
pub fn format(rt: &impl Abort, disk: MemoryDisk, pages: u32) -> MemoryDisk {
    assert!(rt; 1 <= pages && pages <= 16_384);
    match Heap::format(disk, pages, LOG_BYTES, 1) {
        Ok(disk) => disk,
        Err((e, _)) => panic!(rt; "not made: {e:?}"),
    }
}

/// An empty heap of one page.
pub fn make_heap(rt: &impl Abort, alloc: Global, pick: Pick) -> Result<MemoryDisk, AllocError> {
    Ok(format(rt, make_disk(alloc, pick)?, 1))
}

/// Closes a heap, and restarts its disk.
pub fn crash(heap: Heap<MemoryDisk>) -> MemoryDisk {
    let mut disk = heap.close();
    disk.restart();
    disk
}

/// Opens the heap, and closes it: its commits, the text of its graph, and the disk.
pub fn found(
    rt: &impl Abort,
    alloc: Global,
    disk: MemoryDisk,
) -> Result<(u64, Vec<u8>, MemoryDisk), GraphError> {
    let heap = open(rt, alloc, disk);
    let text = heap.graph(alloc)?;
    Ok((heap.commits(), text, heap.close()))
}

/// Opens the heap, compares its commits and its graph, and closes it.
pub fn expect(
    rt: &impl Abort,
    alloc: Global,
    disk: MemoryDisk,
    commits: u64,
    graph: &str,
) -> Result<MemoryDisk, GraphError> {
    let (number, text, disk) = found(rt, alloc, disk)?;
    compare(rt, (number, text.as_slice()), (commits, graph.as_bytes()));
    Ok(disk)
}

/// Makes a step, which requires only memory to succeed.
pub fn ask<D: Disk + Drop>(
    rt: &impl Abort,
    heap: &mut Heap<D>,
    event: Event,
) -> Result<Reply, AllocError> {
    assert!(rt; event.is_of_session());
    heap.step(event)
}

/// Makes these steps, whatever they are answered.
pub fn ask_all<D: Disk + Drop>(
    rt: &impl Abort,
    heap: &mut Heap<D>,
    events: &[Event],
) -> Result<(), AllocError> {
    for event in events {
        ask(rt, heap, *event)?;
    }
    Ok(())
}

/// A disk that was stopped after these events, and restarted.
fn make_unended(rt: &impl Abort, alloc: Global, pick: Pick) -> Result<MemoryDisk, AllocError> {
    let mut heap = open(rt, alloc, make_heap(rt, alloc, pick)?);
    ask_all(rt, &mut heap, &EVENTS)?;
    Ok(crash(heap))
}

/// The records of the log of a closed heap.
pub fn read_log(
    rt: &impl Abort,
    alloc: Global,
    disk: &mut MemoryDisk,
) -> Result<Vec<Record>, LogError> {
    assert!(rt; LOG_AT + u64::from(LOG_BYTES) <= disk.size());
    let (_, records) = Log::open(alloc, disk, LOG_AT, LOG_BYTES)?;
    Ok(records)
}

/// What the log of a closed heap ends with.
fn check_rollback(rt: &impl Abort, alloc: Global, mut disk: MemoryDisk) -> Result<(), LogError> {
    let records = read_log(rt, alloc, &mut disk)?;
    assert!(rt; records.ends_with(&ROLLBACK));
    Ok(())
}

#[test]
fn writes_are_taken_back(rt: HostRuntime) -> Result<(), Fail> {
    let alloc = rt.alloc();
    let disk = make_unended(&rt, alloc, Pick::Newest)?;
    let mut heap = open(&rt, alloc, disk);
    let begun = ask(&rt, &mut heap, Event::Begin { s: 1 })?;
    compare(&rt, begun, Reply::Begun { n: 3 });
    let disk = expect(&rt, alloc, heap.close(), 1, GRAPH)?;
    check_rollback(&rt, alloc, disk)?;
    Ok(())
}

/// Why the heap is not opened, and its disk.
pub fn refused<D: Disk + Drop>(rt: &impl Abort, alloc: Global, disk: D) -> (OpenError, D) {
    match Heap::open(alloc, disk) {
        Ok(_) => panic!(rt; "not refused"),
        Err(refused) => refused,
    }
}

/// Stops an opening after that many calls.
fn cut_off(rt: &impl Abort, alloc: Global, disk: MemoryDisk, calls: u64) -> MemoryDisk {
    let (error, fuse) = refused(rt, alloc, FuseDisk::new(disk, calls));
    compare(rt, (calls, error), (calls, OpenError::Stopped));
    let mut disk = fuse.into_inner();
    disk.restart();
    disk
}

/// Stops an opening after that many calls, and compares what another one finds.
fn check_cut_off(rt: &impl Abort, alloc: Global, pick: Pick, calls: u64) -> Result<(), Fail> {
    let disk = make_unended(rt, alloc, pick)?;
    expect(rt, alloc, cut_off(rt, alloc, disk, calls), 1, GRAPH)?;
    Ok(())
}

#[test]
fn stopped_at_each_call(rt: HostRuntime) -> Result<(), Fail> {
    for pick in &PICKS {
        for calls in 0..OPENING_CALLS {
            check_cut_off(&rt, rt.alloc(), *pick, calls)?;
        }
    }
    Ok(())
}
