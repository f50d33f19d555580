//! The bank of `docs/LIBRARY.md`, on a disk in memory.
use crate::bank::{audit, open_accounts, work_beside};
use crate::playing::{opened, same};
use disk_model::{MemoryDisk, Pick};
use graph_model::{Entry, Reply};
use heap_core::Heap;
use std::alloc::{AllocError, Global};
use std::process::Abort;
use std::test::Fail;

// An empty heap of one page, with room for the log of all transfers, on a disk in memory.
fn make_heap(rt: &impl Abort, alloc: Global) -> Result<Heap<MemoryDisk>, AllocError> {
    let zeros = vec![in alloc; 0u8; 131_072]?;
    let none = Vec::new(alloc);
    let disk = MemoryDisk::of(alloc, zeros, Pick::Newest, 262_144, none, Vec::new(alloc))?;
    let Ok(disk) = Heap::format(disk, 1, 65_536, 1) else {
        panic!(rt; "not made")
    };
    Ok(opened(rt, alloc, disk))
}

fn is_collected(entry: &Entry) -> bool {
    matches!(entry.reply, Reply::Collected { .. })
}

/// Money was moved, a collection ended meanwhile, and the total is what it was at first.
fn expect_kept(rt: &impl Abort, heap: &mut Heap<MemoryDisk>) {
    let collected = heap.history().iter().any(|entry| is_collected(&entry));
    same(rt, (1 < heap.commits(), collected), (true, true));
    same(rt, audit(heap), Some(400));
}

#[test]
fn the_accounts_keep_their_sum(rt: HostRuntime) -> Result<(), Fail> {
    let alloc = rt.alloc();
    let mut heap = make_heap(&rt, alloc)?;
    same(&rt, open_accounts(&mut heap).is_some(), true);
    let Ok(mut heap) = work_beside(&rt, alloc, heap) else {
        panic!(rt; "memory was refused")
    };
    expect_kept(&rt, &mut heap);
    Ok(())
}
