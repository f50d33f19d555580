//! Images whose pages were stored at different times: an opening redoes on each page what it lacks, and nothing else.
use crate::opening_tests::{
    LOG_BYTES, ask, ask_all, compare, crash, expect, format, found, make_disk, make_heap, open,
    read_log, refused,
};
use crate::reached_tests::{Step, play};
use disk_model::{Disk, DiskError, FuseDisk, MemoryDisk, Pick};
use graph_model::{Event, Refusal, Reply};
use heap_core::{Heap, OpenError};
use heap_recovery::At;
use image_plan::Plan;
use log_machine::LogState;
use log_records::Record;
use page_cache::PageCache;
use page_store::PageStore;
use std::alloc::{AllocError, Global};
use std::process::Abort;
use std::test::Fail;

/// A heap of two pages a space, so of four pages, whose objects lie on the first two.
const PLAN: Plan = Plan {
    pages: 2,
    log_bytes: LOG_BYTES,
};

/// How many records its log holds.
const RECORDS: usize = 10;

/// Transactions 1 and 2 are committed, and what 3 wrote has to be taken back. Each of them writes both pages.
const STEPS: [Step; 21] = [
    (Event::Begin { s: 1 }, Reply::Begun { n: 1 }),
    (Event::Root { s: 1, h: 0 }, Reply::Done),
    (
        Event::New {
            s: 1,
            h: 1,
            len: 60,
        },
        Reply::Done,
    ),
    (
        Event::Put {
            s: 1,
            h: 1,
            i: 0,
            v: 5,
        },
        Reply::Done,
    ),
    (
        Event::Link {
            s: 1,
            h: 0,
            i: 0,
            h2: 1,
        },
        Reply::Done,
    ),
    (Event::Seal { s: 1 }, Reply::Sealed { n: 1 }),
    (Event::Force, Reply::Durable { n: 1 }),
    (Event::Begin { s: 1 }, Reply::Begun { n: 2 }),
    (Event::Root { s: 1, h: 0 }, Reply::Done),
    (
        Event::Get {
            s: 1,
            h: 0,
            i: 0,
            h2: 1,
        },
        Reply::Reference,
    ),
    (
        Event::Put {
            s: 1,
            h: 0,
            i: 1,
            v: 7,
        },
        Reply::Done,
    ),
    (
        Event::Put {
            s: 1,
            h: 1,
            i: 59,
            v: 8,
        },
        Reply::Done,
    ),
    (Event::Seal { s: 1 }, Reply::Sealed { n: 2 }),
    (Event::Force, Reply::Durable { n: 2 }),
    (Event::Begin { s: 1 }, Reply::Begun { n: 3 }),
    (Event::Root { s: 1, h: 0 }, Reply::Done),
    (
        Event::Get {
            s: 1,
            h: 0,
            i: 0,
            h2: 1,
        },
        Reply::Reference,
    ),
    (
        Event::Put {
            s: 1,
            h: 1,
            i: 0,
            v: 9,
        },
        Reply::Done,
    ),
    (
        Event::Put {
            s: 1,
            h: 1,
            i: 59,
            v: 10,
        },
        Reply::Done,
    ),
    (
        Event::Put {
            s: 1,
            h: 0,
            i: 1,
            v: 11,
        },
        Reply::Done,
    ),
    (Event::Force, Reply::Durable { n: 2 }),
];

/// A disk on which these steps were made, and no page is stored.
fn make_played(rt: &impl Abort, alloc: Global) -> Result<MemoryDisk, AllocError> {
    let disk = format(rt, make_disk(alloc, Pick::Newest)?, PLAN.pages);
    play(rt, alloc, disk, &STEPS)
}

fn open_pages(
    rt: &impl Abort,
    alloc: Global,
    disk: &mut MemoryDisk,
) -> Result<PageCache, page_store::ReadPagesError> {
    assert!(rt; disk.size() >= PLAN.size());
    PageCache::open(alloc, disk, PLAN, 2 * PLAN.pages)
}

/// Redoes these records on the pages, on which each of them can follow.
fn redo(rt: &impl Abort, alloc: Global, cache: &mut PageCache, records: &[Record]) {
    assert!(rt; records.len() < 99);
    let mut state = LogState::start(alloc, PLAN.pages, 1);
    for (i, record) in records.iter().enumerate() {
        assert!(rt; state.commits() < 99 && state.reserve() < 999);
        assert!(rt; cache.as_slice().len() == 128 * state.pages() as usize);
        let Ok(()) = state.after(alloc, record) else {
            panic!(rt; "it can't follow");
        };
        cache.redo(i as u64 + 1, record);
    }
}

/// Stores page `p` as it is in memory, if the disk has it otherwise. The log has `forced` records.
fn flush(
    rt: &impl Abort,
    cache: &mut PageCache,
    disk: &mut MemoryDisk,
    p: u32,
    forced: u64,
) -> Result<(), DiskError> {
    assert!(rt; p < cache.pages() && disk.size() >= cache.plan().size());
    if !cache.dirty(p) {
        return Ok(());
    }
    assert!(rt; !cache.failed() && cache.lsn(p) <= forced);
    cache.flush(disk, p, forced)
}

/// When a page is stored: after that many of the log's records.
type Store = (usize, u32);

/// Stores a page as it is after these records, if it isn't stored as it was later.
fn store_behind(
    rt: &impl Abort,
    alloc: Global,
    disk: &mut MemoryDisk,
    records: &[Record],
    p: u32,
) -> Result<(), Fail> {
    let mut cache = open_pages(rt, alloc, disk)?;
    redo(rt, alloc, &mut cache, records);
    flush(rt, &mut cache, disk, p, RECORDS as u64)?;
    Ok(())
}

/// Stores a page as it is after that many of the log's records.
fn store(
    rt: &impl Abort,
    alloc: Global,
    disk: &mut MemoryDisk,
    (after, p): Store,
) -> Result<(), Fail> {
    let records = read_log(rt, alloc, disk)?;
    compare(rt, records.len(), RECORDS);
    assert!(rt; after <= records.len());
    store_behind(rt, alloc, disk, &records[..after], p)
}

/// A disk on which pages were stored one after another.
fn make_stored(rt: &impl Abort, alloc: Global, stores: &[Store]) -> Result<MemoryDisk, Fail> {
    let mut disk = make_played(rt, alloc)?;
    for at in stores {
        store(rt, alloc, &mut disk, *at)?;
    }
    Ok(disk)
}

/// Stores pages one after another, and compares what is found then.
fn check(rt: &impl Abort, alloc: Global, stores: &[Store], graph: &[u8]) -> Result<(), Fail> {
    let disk = make_stored(rt, alloc, stores)?;
    let (commits, text, _) = found(rt, alloc, disk)?;
    compare(rt, (stores, commits, text.as_slice()), (stores, 2, graph));
    Ok(())
}

/// Stores both pages, after the given number of records each, and one of them twice.
fn check_ages(
    rt: &impl Abort,
    alloc: Global,
    first: usize,
    second: usize,
    graph: &[u8],
) -> Result<(), Fail> {
    check(rt, alloc, &[(first, 0), (second, 1), (0, 0)], graph)?;
    check(rt, alloc, &[(first, 1), (second, 0), (second, 1)], graph)
}

#[test]
fn pages_of_any_age_give_the_same_graph(rt: HostRuntime) -> Result<(), Fail> {
    let disk = make_played(&rt, rt.alloc())?;
    let (_, graph, _) = found(&rt, rt.alloc(), disk)?;
    for first in 0..=RECORDS {
        for second in 0..=RECORDS {
            check_ages(&rt, rt.alloc(), first, second, &graph)?;
        }
    }
    Ok(())
}

/// The heap of one page a space.
const SMALL: Plan = Plan {
    pages: 1,
    log_bytes: LOG_BYTES,
};

/// Transaction 1 writes 7 by record 1, and transaction 2 writes 8 by record 3. Records 2 and 4 are their commits.
const SMALL_STEPS: [Step; 10] = [
    (Event::Begin { s: 1 }, Reply::Begun { n: 1 }),
    (Event::Root { s: 1, h: 0 }, Reply::Done),
    (
        Event::Put {
            s: 1,
            h: 0,
            i: 0,
            v: 7,
        },
        Reply::Done,
    ),
    (Event::Seal { s: 1 }, Reply::Sealed { n: 1 }),
    (Event::Force, Reply::Durable { n: 1 }),
    (Event::Begin { s: 1 }, Reply::Begun { n: 2 }),
    (Event::Root { s: 1, h: 0 }, Reply::Done),
    (
        Event::Put {
            s: 1,
            h: 0,
            i: 1,
            v: 8,
        },
        Reply::Done,
    ),
    (Event::Seal { s: 1 }, Reply::Sealed { n: 2 }),
    (Event::Force, Reply::Durable { n: 2 }),
];

/// A page on which no record left what it holds: the root with 99 and 98 as its first fields.
fn wrong_page() -> [u64; 64] {
    let mut page = [0u64; 64];
    page[0] = 17;
    page[2] = 397;
    page[3] = 393;
    page
}

/// Stores page `p` wrongly, with this LSN.
fn store_wrong(
    rt: &impl Abort,
    alloc: Global,
    disk: &mut MemoryDisk,
    p: u32,
    lsn: u64,
) -> Result<(), Fail> {
    assert!(rt; disk.size() >= SMALL.size());
    let mut store = PageStore::open(alloc, disk, SMALL)?.0;
    assert!(rt; p < store.pages() && disk.size() >= store.plan().size());
    assert!(rt; store.stored_lsn(p) < lsn && !store.failed());
    store.store(disk, p, lsn, &wrong_page())?;
    Ok(())
}

/// A disk on which these steps were made and page `p` is stored wrongly, with this LSN.
fn make_wrong(rt: &impl Abort, alloc: Global, p: u32, lsn: u64) -> Result<MemoryDisk, Fail> {
    let disk = make_heap(rt, alloc, Pick::Newest)?;
    let mut disk = play(rt, alloc, disk, &SMALL_STEPS)?;
    store_wrong(rt, alloc, &mut disk, p, lsn)?;
    Ok(disk)
}

/// With which LSN the wrong page is stored, what is then found, since only records after the LSN are redone, and whether these changed the
/// page, so that it is dirty.
const WRONG: [(u64, &str, bool); 4] = [
    (1, "graph 1\n0: 99 8 - -\n", true),
    (2, "graph 1\n0: 99 8 - -\n", true),
    (3, "graph 1\n0: 99 98 - -\n", false),
    (4, "graph 1\n0: 99 98 - -\n", false),
];

/// Which of the first pages are dirty after an opening. There are two.
fn dirty(rt: &impl Abort, alloc: Global, disk: MemoryDisk) -> [bool; 3] {
    let heap = open(rt, alloc, disk);
    [heap.dirty(0), heap.dirty(1), heap.dirty(2)]
}

/// What a page has is not redone, and what redo changed is dirty.
fn check_wrong(
    rt: &impl Abort,
    alloc: Global,
    (lsn, graph, changed): (u64, &str, bool),
) -> Result<(), Fail> {
    let found = dirty(rt, alloc, make_wrong(rt, alloc, 0, lsn)?);
    compare(rt, (lsn, found), (lsn, [changed, false, false]));
    expect(rt, alloc, make_wrong(rt, alloc, 0, lsn)?, 2, graph)?;
    Ok(())
}

#[test]
fn only_what_a_page_lacks_is_redone(rt: HostRuntime) -> Result<(), Fail> {
    for wrong in &WRONG {
        check_wrong(&rt, rt.alloc(), *wrong)?;
    }
    Ok(())
}

#[test]
fn a_page_ahead_of_the_log_is_refused(rt: HostRuntime) -> Result<(), Fail> {
    for p in 0..2 {
        let disk = make_wrong(&rt, rt.alloc(), p, 5)?;
        let error = refused(&rt, rt.alloc(), disk).0;
        compare(&rt, error, OpenError::Damaged { at: At::Page(p) });
    }
    Ok(())
}

/// A step, which of the two pages are dirty after it, and whether records are pending.
type Stored = (Step, [bool; 2], bool);

/// A flush forces only if the page has a pending record: a commit has none on any page.
const FLUSH_STEPS: [Stored; 13] = [
    (
        (Event::Begin { s: 1 }, Reply::Begun { n: 1 }),
        [false, false],
        false,
    ),
    (
        (Event::Root { s: 1, h: 0 }, Reply::Done),
        [false, false],
        false,
    ),
    (
        (Event::Flush { p: 0 }, Reply::Clean { page: 0 }),
        [false, false],
        false,
    ),
    (
        (
            Event::Put {
                s: 1,
                h: 0,
                i: 0,
                v: 7,
            },
            Reply::Done,
        ),
        [true, false],
        true,
    ),
    (
        (
            Event::Flush { p: 2 },
            Reply::Refused {
                why: Refusal::NoSuchPage,
            },
        ),
        [true, false],
        true,
    ),
    (
        (Event::Flush { p: 1 }, Reply::Clean { page: 1 }),
        [true, false],
        true,
    ),
    (
        (Event::Flush { p: 0 }, Reply::Flushed { page: 0 }),
        [false, false],
        false,
    ),
    (
        (
            Event::Put {
                s: 1,
                h: 0,
                i: 1,
                v: 8,
            },
            Reply::Done,
        ),
        [true, false],
        true,
    ),
    (
        (Event::Force, Reply::Durable { n: 0 }),
        [true, false],
        false,
    ),
    (
        (Event::Seal { s: 1 }, Reply::Sealed { n: 1 }),
        [true, false],
        true,
    ),
    (
        (Event::Flush { p: 0 }, Reply::Flushed { page: 0 }),
        [false, false],
        true,
    ),
    (
        (Event::Flush { p: 0 }, Reply::Clean { page: 0 }),
        [false, false],
        true,
    ),
    (
        (Event::Force, Reply::Durable { n: 1 }),
        [false, false],
        false,
    ),
];

/// Makes a step, and compares its answer and what the heap then says of its pages and its log.
fn expect_step(
    rt: &impl Abort,
    heap: &mut Heap<MemoryDisk>,
    ((event, reply), pages, waits): Stored,
) -> Result<(), AllocError> {
    compare(rt, (event, ask(rt, heap, event)?), (event, reply));
    assert!(rt; heap.failed().is_none());
    let found = ([heap.dirty(0), heap.dirty(1)], heap.pending());
    compare(rt, (event, found), (event, (pages, waits)));
    Ok(())
}

#[test]
fn a_flushed_page_is_clean(rt: HostRuntime) -> Result<(), Fail> {
    let alloc = rt.alloc();
    let mut heap = open(&rt, alloc, make_heap(&rt, alloc, Pick::Synced)?);
    for step in &FLUSH_STEPS {
        expect_step(&rt, &mut heap, *step)?;
    }
    compare(&rt, dirty(&rt, alloc, crash(heap)), [false, false, false]);
    Ok(())
}

/// A flush of a page with a pending record.
static FLUSH_WAITING: [Event; 4] = [
    Event::Begin { s: 1 },
    Event::Root { s: 1, h: 0 },
    Event::Put {
        s: 1,
        h: 0,
        i: 0,
        v: 7,
    },
    Event::Flush { p: 0 },
];

/// A flush of a page whose record is on the disk.
static FLUSH_FORCED: [Event; 5] = [
    Event::Begin { s: 1 },
    Event::Root { s: 1, h: 0 },
    Event::Put {
        s: 1,
        h: 0,
        i: 0,
        v: 7,
    },
    Event::Force,
    Event::Flush { p: 0 },
];

/// Makes events of which the last one stops after that many calls. What was pending before it stays pending, though its own force may be done.
fn stopped(
    rt: &impl Abort,
    alloc: Global,
    events: &[Event],
    calls: u64,
    waits: bool,
) -> Result<MemoryDisk, AllocError> {
    let disk = FuseDisk::new(make_heap(rt, alloc, Pick::Newest)?, calls);
    let mut heap = open(rt, alloc, disk);
    ask_all(rt, &mut heap, events)?;
    let (entry, found) = (events.len() as u64, (heap.failed(), heap.pending()));
    compare(rt, (calls, found), (calls, (Some(entry), waits)));
    let mut disk = heap.close().into_inner();
    disk.restart();
    Ok(disk)
}

/// Stops the last one of these events, and finds the empty heap.
fn expect_stopped(
    rt: &impl Abort,
    alloc: Global,
    events: &[Event],
    calls: u64,
    waits: bool,
) -> Result<(), Fail> {
    let disk = stopped(rt, alloc, events, calls, waits)?;
    expect(rt, alloc, disk, 0, "graph 1\n0: - - - -\n")?;
    Ok(())
}

#[test]
fn a_flush_that_stops_leaves_what_waited(rt: HostRuntime) -> Result<(), Fail> {
    for calls in 0..8 {
        expect_stopped(&rt, rt.alloc(), &FLUSH_WAITING, calls, true)?;
    }
    for calls in 4..8 {
        expect_stopped(&rt, rt.alloc(), &FLUSH_FORCED, calls, false)?;
    }
    Ok(())
}
