//! Transactions of a heap of one page: what is sealed is there afterwards, what is aborted is not, sessions that run side by side
//! conflict if both use an object and one writes it, and the log keeps room for their ends.
ghost use Rattle.std.specs.Prelude.{IsTrue};
ghost use Rattle.heap_engine.specs.EngineState.{LiesWithin, HasNotFailed};

use crate::compare::same;
use disk_model::{Disk, MemoryDisk, Pick};
use gated_log::Log;
use graph_model::{Event, Refusal, Reply};
use heap_engine::{Engine, StepError};
use heap_spaces::Spaces;
use image_plan::Plan;
use logged_pages::LoggedPages;
use object_layout::Words;
use page_cache::PageCache;
use std::alloc::{AllocError, Global};
use std::process::Abort;
use std::test::Fail;
use txn_table::TxnTable;

/// A heap of one page a space, with a log of 500 bytes.
const PLAN: Plan = Plan {
    pages: 1,
    log_bytes: 500,
};

/// One with a log of 80 bytes.
const SMALL: Plan = Plan {
    pages: 1,
    log_bytes: 80,
};

/// An open heap: its engine and its disk.
#[derive(Drop)]
struct Opened {
    engine: Engine,
    disk: MemoryDisk,
    // Whether every call of the disk has succeeded.
    works: bool,
    ghost inside: { LiesWithin engine (⟦<MemoryDisk as Disk>⟧.extent disk) },
    ghost unfailed: { IsTrue works → HasNotFailed engine },
}

/// A disk of that many zeros.
fn new_disk(alloc: Global, size: u64) -> Result<MemoryDisk, AllocError> {
    let bytes = vec![in alloc; 0u8; size as usize]?;
    let none = Vec::new(alloc);
    MemoryDisk::of(alloc, bytes, Pick::Newest, 1000, none, Vec::new(alloc))
}

/// A new heap of that plan.
fn new_heap(rt: &impl Abort, alloc: Global, plan: Plan) -> Result<Opened, Fail> {
    assert!(rt; plan.pages == 1 && plan.log_bytes > 0);
    let mut disk = new_disk(alloc, plan.size())?;
    assert!(rt; disk.size() >= plan.size());
    let (log, _) = Log::open(alloc, &mut disk, plan.log_at(), plan.log_bytes)?;
    assert!(rt; disk.size() >= plan.size());
    let cache = PageCache::open(alloc, &mut disk, plan, 2 * plan.pages)?;
    assert!(rt; cache.first_past(log.records()).is_none());
    let pages = LoggedPages::new(log, cache);
    let spaces = Spaces::new(1, 0, 6, 0);
    let mut table = TxnTable::new(alloc)?;
    table.set_next(1);
    let engine = Engine::new(alloc, pages, spaces, None, table);
    Ok(Opened {
        engine,
        disk,
        works: true,
    })
}

/// An event of a session, and what it is answered.
type Step = (Event, Reply);

/// Transaction 1 makes an object, writes into it, and is sealed.
const MADE: [Step; 7] = [
    (Event::Begin { s: 32 }, Reply::Begun { n: 1 }),
    (Event::Root { s: 32, h: 0 }, Reply::Done),
    (
        Event::New {
            s: 32,
            h: 63,
            len: 2,
        },
        Reply::Done,
    ),
    (
        Event::Put {
            s: 32,
            h: 63,
            i: 1,
            v: 7,
        },
        Reply::Done,
    ),
    (
        Event::Link {
            s: 32,
            h: 0,
            i: 3,
            h2: 63,
        },
        Reply::Done,
    ),
    (
        Event::Same {
            s: 32,
            h: 0,
            h2: 63,
        },
        Reply::No,
    ),
    (Event::Seal { s: 32 }, Reply::Sealed { n: 1 }),
];

/// Transaction 2 finds the object, and what it writes there is taken back.
const WRITTEN_IN_VAIN: [Step; 9] = [
    (Event::Begin { s: 1 }, Reply::Begun { n: 2 }),
    (Event::Root { s: 1, h: 0 }, Reply::Done),
    (
        Event::Get {
            s: 1,
            h: 0,
            i: 3,
            h2: 1,
        },
        Reply::Reference,
    ),
    (Event::Len { s: 1, h: 1 }, Reply::Length { n: 2 }),
    (
        Event::Get {
            s: 1,
            h: 1,
            i: 1,
            h2: 2,
        },
        Reply::Int { v: 7 },
    ),
    (Event::Clear { s: 1, h: 1, i: 1 }, Reply::Done),
    (
        Event::Get {
            s: 1,
            h: 1,
            i: 1,
            h2: 2,
        },
        Reply::Null,
    ),
    (
        Event::Drop { s: 1, h: 64 },
        Reply::Refused {
            why: Refusal::BadHandle,
        },
    ),
    (Event::Abort { s: 1 }, Reply::Aborted),
];

/// Three sessions have a transaction each.
const THREE: [Step; 6] = [
    (Event::Begin { s: 1 }, Reply::Begun { n: 1 }),
    (Event::Root { s: 1, h: 0 }, Reply::Done),
    (Event::Begin { s: 2 }, Reply::Begun { n: 2 }),
    (Event::Root { s: 2, h: 0 }, Reply::Done),
    (Event::Begin { s: 3 }, Reply::Begun { n: 3 }),
    (Event::Root { s: 3, h: 0 }, Reply::Done),
];

/// Those that read may run together, and conflict with one that writes.
const READERS_FIRST: [Step; 7] = [
    (
        Event::Get {
            s: 2,
            h: 0,
            i: 0,
            h2: 1,
        },
        Reply::Null,
    ),
    (
        Event::Get {
            s: 3,
            h: 0,
            i: 0,
            h2: 1,
        },
        Reply::Null,
    ),
    (
        Event::Put {
            s: 1,
            h: 0,
            i: 0,
            v: 5,
        },
        Reply::Refused {
            why: Refusal::Busy { holder: 2 },
        },
    ),
    (Event::Abort { s: 2 }, Reply::Aborted),
    (
        Event::Put {
            s: 1,
            h: 0,
            i: 0,
            v: 5,
        },
        Reply::Refused {
            why: Refusal::Busy { holder: 3 },
        },
    ),
    (Event::Seal { s: 3 }, Reply::Sealed { n: 1 }),
    (
        Event::Put {
            s: 1,
            h: 0,
            i: 0,
            v: 5,
        },
        Reply::Done,
    ),
];

/// Nobody else sees what is written before the seal.
const UNSEEN: [Step; 5] = [
    (Event::Begin { s: 3 }, Reply::Begun { n: 4 }),
    (Event::Root { s: 3, h: 0 }, Reply::Done),
    (
        Event::Get {
            s: 3,
            h: 0,
            i: 0,
            h2: 1,
        },
        Reply::Refused {
            why: Refusal::Busy { holder: 1 },
        },
    ),
    (
        Event::Get {
            s: 3,
            h: 0,
            i: 4,
            h2: 1,
        },
        Reply::Refused {
            why: Refusal::BadField,
        },
    ),
    (
        Event::Get {
            s: 2,
            h: 0,
            i: 0,
            h2: 1,
        },
        Reply::Refused {
            why: Refusal::NotActive,
        },
    ),
];

/// And after it they see it.
const SEEN: [Step; 2] = [
    (Event::Seal { s: 1 }, Reply::Sealed { n: 2 }),
    (
        Event::Get {
            s: 3,
            h: 0,
            i: 0,
            h2: 1,
        },
        Reply::Int { v: 5 },
    ),
];

/// What is pending is forced once, as one commit, and then the one page that has changed is stored.
const FORCED: [Step; 5] = [
    (Event::Force, Reply::Durable { n: 1 }),
    (Event::Force, Reply::Durable { n: 1 }),
    (Event::Flush { p: 0 }, Reply::Flushed { page: 0 }),
    (Event::Flush { p: 1 }, Reply::Clean { page: 1 }),
    (
        Event::Flush { p: 2 },
        Reply::Refused {
            why: Refusal::NoSuchPage,
        },
    ),
];

/// Ten words of 64 are taken: there is no room for an object of 53 fields in the rest.
const TOO_LARGE: [Step; 5] = [
    (Event::Begin { s: 4 }, Reply::Begun { n: 3 }),
    (Event::Root { s: 4, h: 0 }, Reply::Done),
    (
        Event::New {
            s: 4,
            h: 1,
            len: 53,
        },
        Reply::Done,
    ),
    (
        Event::Link {
            s: 4,
            h: 0,
            i: 0,
            h2: 1,
        },
        Reply::Done,
    ),
    (
        Event::Seal { s: 4 },
        Reply::Refused {
            why: Refusal::Exhausted {
                need: 55,
                free: 54,
                owed: 0,
            },
        },
    ),
];

/// Ten bytes are kept for the end of each transaction, and 19 for each of its writes. A write takes 27, an end 5, and the first record of a batch 5
/// more.
const ROOM: [Step; 4] = [
    (
        Event::Put {
            s: 1,
            h: 0,
            i: 0,
            v: 5,
        },
        Reply::Refused {
            why: Refusal::LogFull {
                used: 1,
                need: 32,
                reserved: 49,
            },
        },
    ),
    (Event::Abort { s: 3 }, Reply::Aborted),
    (
        Event::Put {
            s: 1,
            h: 0,
            i: 0,
            v: 5,
        },
        Reply::Done,
    ),
    (
        Event::Begin { s: 4 },
        Reply::Refused {
            why: Refusal::LogFull {
                used: 38,
                need: 0,
                reserved: 49,
            },
        },
    ),
];

/// Asks an event, whose session, if it has one, is from 1 to 32.
fn ask(rt: &impl Abort, heap: &mut Opened, event: Event) -> Result<Reply, AllocError> {
    assert!(rt; heap.works && event.is_of_session());
    heap.works = false;
    match heap.engine.step_on(&mut heap.disk, event) {
        Ok(reply) => {
            heap.works = true;
            Ok(reply)
        }
        Err(StepError::NoMemory) => Err(AllocError),
        Err(StepError::Disk(_)) => panic!(rt; "the disk failed or stopped"),
    }
}

/// Asks each event, and compares its answer.
fn play(rt: &impl Abort, heap: &mut Opened, steps: &[Step]) -> Result<(), AllocError> {
    for (event, reply) in steps {
        let found = ask(rt, heap, *event)?;
        same(rt, (*event, found), (*event, *reply));
    }
    Ok(())
}

/// A committed word.
fn committed(alloc: Global, heap: &Opened, at: u32) -> Result<Option<u64>, AllocError> {
    let mut words = heap.engine.committed_words(alloc)?;
    if words.size() <= at {
        return Ok(None);
    }
    Ok(words.word(at).ok())
}

/// What is done with a heap, and what is found then.
enum Part {
    Play(&'static [Step]),
    /// A word address, and the committed word there.
    Committed(u32, u64),
    Pending(bool),
}

fn do_part(rt: &impl Abort, alloc: Global, heap: &mut Opened, part: &Part) -> Result<(), Fail> {
    match part {
        Part::Play(steps) => play(rt, heap, steps)?,
        Part::Committed(at, word) => same(rt, committed(alloc, heap, *at)?, Some(*word)),
        Part::Pending(pending) => same(rt, heap.engine.pending(), *pending),
    }
    Ok(())
}

/// Does these one after another with a new heap.
fn do_parts(rt: &impl Abort, alloc: Global, plan: Plan, parts: &[Part]) -> Result<(), Fail> {
    let mut heap = new_heap(rt, alloc, plan)?;
    for part in parts {
        do_part(rt, alloc, &mut heap, part)?;
    }
    Ok(())
}

/// What was sealed stays.
const SEALED: [Part; 7] = [
    Part::Play(&MADE),
    Part::Play(&WRITTEN_IN_VAIN),
    Part::Committed(9, 29),
    Part::Pending(true),
    Part::Play(&FORCED),
    Part::Pending(false),
    Part::Play(&TOO_LARGE),
];

/// Sessions give way to one another.
const SIDE_BY_SIDE: [Part; 6] = [
    Part::Play(&THREE),
    Part::Play(&READERS_FIRST),
    Part::Play(&UNSEEN),
    Part::Committed(2, 0),
    Part::Play(&SEEN),
    Part::Committed(2, 21),
];

/// The log keeps room for the ends.
const FULL: [Part; 2] = [Part::Play(&THREE), Part::Play(&ROOM)];

/// The plan of a new heap, and what is done with it.
const HEAPS: [(Plan, &[Part]); 3] = [(PLAN, &SEALED), (PLAN, &SIDE_BY_SIDE), (SMALL, &FULL)];

#[test]
fn new_heaps_answer(rt: HostRuntime) -> Result<(), Fail> {
    for (plan, parts) in &HEAPS {
        do_parts(&rt, rt.alloc(), *plan, parts)?;
    }
    Ok(())
}
