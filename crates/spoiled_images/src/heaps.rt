//! What the heap makes of events, and how it answers for an image.
use crate::reader::Verdict;
use disk_model::{MemoryDisk, Pick};
use graph_model::{Event, Reply};
use heap_core::{At, Heap, OpenError};
use std::alloc::{AllocError, Global};
use std::process::Abort;

/// The room for all that is written to a disk of the tests.
const RECORD_BYTES: usize = 16_384;

type Disk = MemoryDisk;

pub fn disk_of(alloc: Global, bytes: &[u8]) -> Result<Disk, AllocError> {
    MemoryDisk::of(
        alloc,
        bytes.to_vec(alloc)?,
        Pick::Newest,
        RECORD_BYTES,
        Vec::new(alloc),
        Vec::new(alloc),
    )
}

/// Formats a disk for a heap of that many pages a space, with that many bytes for its log.
fn formatted(rt: &impl Abort, disk: Disk, pages: u32, log_bytes: u32) -> Disk {
    assert!(rt; 1 <= pages && pages <= 16_384);
    assert!(rt; 64 <= log_bytes && log_bytes <= 1_073_741_824);
    match Heap::format(disk, pages, log_bytes, 1) {
        Ok(disk) => disk,
        Err(_) => panic!(rt; "not made"),
    }
}

/// Opens a heap. It has no clause, so that its callers have nothing of the opening's to prove with.
fn open(alloc: Global, disk: Disk) -> Result<Heap<Disk>, (OpenError, Disk)> {
    Heap::open(alloc, disk)
}

/// A disk of that many bytes with a new heap of that many pages a space, on which these events were made.
pub fn played(
    rt: &impl Abort,
    alloc: Global,
    bytes: usize,
    (pages, log_bytes): (u32, u32),
    events: &[Event],
) -> Result<Disk, AllocError> {
    let zeros = vec![in alloc; 0u8; bytes]?;
    let disk = formatted(rt, disk_of(alloc, &zeros)?, pages, log_bytes);
    let Ok(mut heap) = open(alloc, disk) else {
        panic!(rt; "not opened");
    };
    for event in events {
        step(rt, &mut heap, *event)?;
    }
    Ok(heap.close())
}

/// Makes an event, which is not refused.
fn step(rt: &impl Abort, heap: &mut Heap<Disk>, event: Event) -> Result<(), AllocError> {
    assert!(rt; event.is_of_session());
    let reply = heap.step(event)?;
    assert!(rt; !matches!(reply, Reply::Refused { .. }), "{event:?}");
    Ok(())
}

/// What the heap says of an image, and the disk that it leaves.
pub fn opened(rt: &impl Abort, alloc: Global, image: &[u8]) -> Result<(Verdict, Disk), AllocError> {
    Ok(match open(alloc, disk_of(alloc, image)?) {
        Ok(heap) => (Verdict::Heap, heap.close()),
        Err((OpenError::NotHeap, disk)) => (Verdict::NotHeap, disk),
        Err((OpenError::Damaged { at }, disk)) => (verdict_at(at), disk),
        Err((e, _)) => panic!(rt; "not opened: {e:?}"),
    })
}

fn verdict_at(at: At) -> Verdict {
    match at {
        At::Batch(offset) => Verdict::Batch(offset),
        At::Rec(number) => Verdict::Record(number),
        At::Reserve => Verdict::Reserve,
        At::Address(address) => Verdict::Address(address),
        At::Page(page) => Verdict::Page(page),
    }
}
