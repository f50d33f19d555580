//! Two callers of one heap: what one commits the other learns of, and the history has the events of both.
ghost use Rattle.std.specs.Prelude.{◌≡◌, [], ◌∷◌, IfOk, Some, slice_get, vec_len};
ghost use Rattle.graph_model.specs.History.{IsSession};
ghost use Rattle.shared_heap.specs.Callers.{whose};
ghost use Rattle.shared_heap.specs.Shared.{IsPass};
ghost use Rattle.shared_heap.specs.Workers.{HasPass};
ghost use Rattle.turn_lock.specs.Passes.{label_of, pass_numbers, passes_of};

use crate::playing::{opened, same};
use disk_model::{MemoryDisk, Pick};
use graph_model::{Event, Reply};
use heap_core::Heap;
use heap_workers::{OpenGate, Station, Worker};
use shared_heap::{Caller, Pass, SharedHeap, work_together};
use std::alloc::{AllocError, Global};
use std::process::Abort;
use std::sync::Wait;
use std::test::Fail;
use std::thread::Threads;

// An empty heap of one page, on a disk in memory.
fn make_heap(rt: &impl Abort, alloc: Global) -> Result<Heap<MemoryDisk>, AllocError> {
    let zeros = vec![in alloc; 0u8; 8192]?;
    let none = Vec::new(alloc);
    let disk = MemoryDisk::of(alloc, zeros, Pick::Newest, 65_536, none, Vec::new(alloc))?;
    let Ok(disk) = Heap::format(disk, 1, 1024, 1) else {
        panic!(rt; "not made")
    };
    Ok(opened(rt, alloc, disk))
}

// The three passes of a list.
fn all_three(
    mut passes: Vec<Pass<MemoryDisk>>,
) -> (Pass<MemoryDisk>, Pass<MemoryDisk>, Pass<MemoryDisk>)
    requires { vec_len passes ≡ 3 }
    ensures first { slice_get passes.items 0 ≡ Some result.0 }
    ensures second { slice_get passes.items 1 ≡ Some result.1 }
    ensures third { slice_get passes.items 2 ≡ Some result.2 }
{
    let three = passes.pop().unwrap();
    let two = passes.pop().unwrap();
    let one = passes.pop().unwrap();
    (one, two, three)
}

// A heap that two sessions and one without a session share.
fn share(
    rt: &impl Abort,
    alloc: Global,
    heap: Heap<MemoryDisk>,
) -> (
    SharedHeap<MemoryDisk>,
    Pass<MemoryDisk>,
    Pass<MemoryDisk>,
    Pass<MemoryDisk>,
)
    ensures passes { passes_of result.0.lock ≡ 3 }
    ensures one { IsPass result.0 result.1 × (label_of result.1 ≡ 1) × (pass_numbers result.1 ≡ 0 ∷ []) }
    ensures two { IsPass result.0 result.2 × (label_of result.2 ≡ 2) × (pass_numbers result.2 ≡ 1 ∷ []) }
    ensures three { IsPass result.0 result.3 × (label_of result.3 ≡ 0) × (pass_numbers result.3 ≡ 2 ∷ []) }
{
    let Ok((shared, passes)) = SharedHeap::new(alloc, heap, &[1, 2, 0]) else {
        panic!(rt; "memory was refused")
    };
    let (one, two, three) = all_three(passes);
    (shared, one, two, three)
}

// A session's transaction puts a number into a field of the root.
fn put_one<R: Wait>(
    rt: &R,
    shared: &SharedHeap<MemoryDisk>,
    pass: &mut Pass<MemoryDisk>,
    s: u32,
    v: u64,
) -> Result<Reply, AllocError>
    requires pass { IsPass shared.now pass.old }
    requires label { IsSession s × (label_of pass.old ≡ s) }
    ensures pass { IsPass shared.now pass.new }
    ensures same { (label_of pass.new ≡ label_of pass.old) × (pass_numbers pass.new ≡ pass_numbers pass.old) }
{
    shared.call(rt, pass, Event::Begin { s })?;
    shared.call(rt, pass, Event::Root { s, h: 0 })?;
    shared.call(rt, pass, Event::Put { s, h: 0, i: 0, v })?;
    shared.call(rt, pass, Event::Seal { s })
}

// Ends the sharing of three.
fn close_three(
    alloc: Global,
    shared: SharedHeap<MemoryDisk>,
    one: Pass<MemoryDisk>,
    two: Pass<MemoryDisk>,
    three: Pass<MemoryDisk>,
) -> Result<Heap<MemoryDisk>, AllocError>
    requires passes { passes_of shared.lock ≡ 3 }
    requires one { IsPass shared one × (pass_numbers one ≡ 0 ∷ []) }
    requires two { IsPass shared two × (pass_numbers two ≡ 1 ∷ []) }
    requires three { IsPass shared three × (pass_numbers three ≡ 2 ∷ []) }
{
    let mut passes = Vec::with_capacity(alloc, 3)?;
    passes.push_reserved(one);
    passes.push_reserved(two);
    passes.push_reserved(three);
    Ok(shared.close(passes))
}

#[test]
fn a_closed_heap_has_the_calls(rt: HostRuntime) -> Result<(), Fail> {
    let alloc = rt.alloc();
    let heap = make_heap(&rt, alloc)?;
    let (shared, mut one, two, three) = share(&rt, alloc, heap);
    put_one(&rt, &shared, &mut one, 1, 7)?;
    let heap = close_three(alloc, shared, one, two, three)?;
    same(&rt, (heap.history().len(), heap.commits()), (4, 1));
    Ok(())
}

#[test]
fn a_commit_shows_at_once(rt: HostRuntime) -> Result<(), Fail> {
    let alloc = rt.alloc();
    let heap = make_heap(&rt, alloc)?;
    let (shared, mut writer, _, mut other) = share(&rt, alloc, heap);
    let sealed = put_one(&rt, &shared, &mut writer, 1, 7)?;
    same(
        &rt,
        (sealed, shared.front(&mut other)),
        (Reply::Sealed { n: 1 }, 0),
    );
    let durable = shared.call(&rt, &mut writer, Event::Force)?;
    same(
        &rt,
        (durable, shared.front(&mut other)),
        (Reply::Durable { n: 1 }, 1),
    );
    Ok(())
}

// A worker of a session, which commits an object of its own that nothing refers to.
fn station<'a>(
    alloc: Global,
    shared: &'a SharedHeap<MemoryDisk>,
    pass: Pass<MemoryDisk>,
    s: u32,
) -> Result<Station<Caller<'a, MemoryDisk>>, AllocError>
    requires pass { IsPass shared.now pass }
    requires label { IsSession s × (label_of pass ≡ s) }
    ensures { IfOk result (λ station. HasPass station × (whose station.calls.heap.now station.calls.pass ≡ whose shared.now pass)) }
{
    let events = vec![in alloc;
        Event::Begin { s },
        Event::New { s, h: 0, len: 1 },
        Event::Put {
            s,
            h: 0,
            i: 0,
            v: 5
        },
        Event::Seal { s },
        Event::Force,
    ]?;
    Ok(Station {
        calls: Caller { heap: shared, pass },
        worker: Worker {
            number: s,
            tries: 1000,
            events,
        },
        end: Ok(()),
    })
}

// Two sessions in two threads, and whether neither ran out of memory.
fn work_beside<R: Threads + Wait + Sync>(
    rt: &R,
    alloc: Global,
    shared: &SharedHeap<MemoryDisk>,
    one: Pass<MemoryDisk>,
    two: Pass<MemoryDisk>,
) -> Result<bool, AllocError>
    requires one { IsPass shared.now one × (label_of one ≡ 1) }
    requires two { IsPass shared.now two × (label_of two ≡ 2) }
{
    let mut stations = Vec::with_capacity(alloc, 2)?;
    stations.push_reserved(station(alloc, shared, one, 1)?);
    stations.push_reserved(station(alloc, shared, two, 2)?);
    work_together(rt, stations.as_mut_slice(), &OpenGate);
    Ok(stations.iter().all(|station| station.end.is_ok()))
}

// A caller that made no call learns what both have committed.
#[test]
fn two_workers_commit_beside_each_other(rt: HostRuntime) -> Result<(), Fail> {
    let alloc = rt.alloc();
    let heap = make_heap(&rt, alloc)?;
    let (shared, one, two, mut other) = share(&rt, alloc, heap);
    let worked = work_beside(&rt, alloc, &shared, one, two)?;
    same(&rt, (worked, shared.front(&mut other)), (true, 2));
    Ok(())
}
