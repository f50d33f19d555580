//! Scripts that are played by workers on a heap in memory.
use disk_model::{MemoryDisk, Pick};
use graph_model::{Entry, Refusal, Reply};
use heap_core::Heap;
use heap_workers::OpenGate;
use script_text::read_script;
use std::alloc::{AllocError, Global};
use std::process::Abort;
use std::sync::Wait;
use std::test::Fail;
use std::thread::Threads;
use thread_play::play_together;

// Two objects, to which the root refers.
const FIRST: &str =
    "1 begin\n1 root 0\n1 new 1 1\n1 new 2 1\n1 link 0 0 1\n1 link 0 1 2\n1 commit\n";

// Each session writes into an object of its own, beside the collector.
const BESIDE: &str =
    "1 begin\n1 root 0\n1 get 0 0 1\n1 put 1 0 5\n1 commit\n2 begin\n2 root 0\n2 get 0 1 1\n2 put 1 0 6\n2 commit\nflip\nscan\nscan\nscan\nscan\n";

// An empty heap of one page, on a disk in memory.
fn make_heap(rt: &impl Abort, alloc: Global) -> Result<Heap<MemoryDisk>, AllocError> {
    let zeros = vec![in alloc; 0u8; 16384]?;
    let none = Vec::new(alloc);
    let disk = MemoryDisk::of(alloc, zeros, Pick::Newest, 65_536, none, Vec::new(alloc))?;
    let Ok(disk) = Heap::format(disk, 1, 8192, 1) else {
        panic!(rt; "not made")
    };
    let Ok(heap) = Heap::open(alloc, disk) else {
        panic!(rt; "not opened")
    };
    Ok(heap)
}

// Plays a script whose lines are all good.
fn play<R: Threads + Wait + Abort + Sync>(
    rt: &R,
    alloc: Global,
    heap: Heap<MemoryDisk>,
    text: &str,
) -> Heap<MemoryDisk> {
    let Ok(lines) = read_script(alloc, text.as_bytes()) else {
        panic!(rt; "a bad line")
    };
    let (end, heap) = play_together(rt, alloc, heap, lines.as_slice(), 1000, &OpenGate);
    assert!(rt; end.is_ok());
    heap
}

fn is_refused(entry: &Entry) -> bool {
    matches!(
        entry.reply,
        Reply::Refused {
            why: Refusal::Busy { .. } | Refusal::BadHandle | Refusal::NotActive
        },
    )
}

#[test]
fn two_sessions_and_a_collection_beside_each_other(rt: HostRuntime) -> Result<(), Fail> {
    let alloc = rt.alloc();
    let heap = play(&rt, alloc, make_heap(&rt, alloc)?, FIRST);
    let mut heap = play(&rt, alloc, heap, BESIDE);
    assert!(rt; !heap.history().iter().any(|entry| is_refused(&entry)));
    assert!(rt; heap.commits() == 3 && heap.history().len() == 8 + 12 + 5);
    assert!(rt; heap.failed().is_none());
    let Ok(text) = heap.graph(alloc) else {
        panic!(rt; "no graph")
    };
    assert!(rt; text.as_slice() == b"graph 3\n0: @1 @2 - -\n1: 5\n2: 6\n".as_slice());
    Ok(())
}
