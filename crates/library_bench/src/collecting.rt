//! Collects a heap in a file through the library's calls.
use anyhow::{Error, bail};
use disk_file::FileDisk;
use disk_model::Disk;
use graph_model::{Event, Reply};
use heap_core::Heap;
use std::alloc::{AllocError, Global};

/// How many collections there are before a force.
const COLLECTIONS: u64 = 6;

/// More scans than a collection needs: one for each page of a largest space, and one that finds nothing gray.
const SCANS: u32 = 16_385;

/// One collection. Answers whether nothing was gray any more at its end.
fn collect<D: Disk>(heap: &mut Heap<D>) -> Result<bool, AllocError> {
    heap.step(Event::Flip)?;
    for _ in 0..SCANS {
        if let Reply::Collected { .. } = heap.step(Event::Scan)? {
            return Ok(true);
        }
    }
    Ok(false)
}

/// Collections one after another, and a force. Answers how many of them ended.
fn collect_and_force<D: Disk>(heap: &mut Heap<D>) -> Result<u64, AllocError> {
    let mut collected: u64 = 0;
    for _ in 0..COLLECTIONS {
        collected = collected.saturating_add(u64::from(collect(heap)?));
    }
    heap.step(Event::Force)?;
    Ok(collected)
}

/// Opens the heap in a file, collects it so many times, with a force after each six, and answers how many collections ended.
pub(crate) fn collect_file(
    rt: &HostRuntime,
    alloc: Global,
    path: &str,
    rounds: u32,
) -> Result<u64, Error> {
    let disk = FileDisk::new(rt, String::from_str(alloc, path)?);
    let mut heap = Heap::open(alloc, disk).map_err(|e| e.0)?;
    let mut collected: u64 = 0;
    for _ in 0..rounds {
        collected = collected.saturating_add(collect_and_force(&mut heap)?);
    }
    Ok(collected)
}
