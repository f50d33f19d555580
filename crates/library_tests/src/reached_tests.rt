//! Objects that transactions make, on a disk that is stopped and restarted: what a sealed one made reachable is there, and what
//! another made is not.
use crate::opening_tests::{PICKS, ask, compare, crash, expect, format, make_heap, open};
use disk_model::{MemoryDisk, Pick};
use graph_model::{Event, Reply};
use std::alloc::{AllocError, Global};
use std::process::Abort;
use std::test::Fail;

/// An event and what it is answered.
pub type Step = (Event, Reply);

/// Transaction 1 makes two objects that are reached from the root, and one that isn't; of transaction 2 the writes are on the disk,
/// and it is never sealed.
const FIRST_SESSION: [Step; 19] = [
    (Event::Begin { s: 1 }, Reply::Begun { n: 1 }),
    (Event::Root { s: 1, h: 0 }, Reply::Done),
    (Event::New { s: 1, h: 1, len: 2 }, Reply::Done),
    (Event::New { s: 1, h: 2, len: 3 }, Reply::Done),
    (Event::New { s: 1, h: 3, len: 2 }, Reply::Done),
    (
        Event::Put {
            s: 1,
            h: 3,
            i: 0,
            v: 5,
        },
        Reply::Done,
    ),
    (
        Event::Link {
            s: 1,
            h: 0,
            i: 1,
            h2: 1,
        },
        Reply::Done,
    ),
    (
        Event::Link {
            s: 1,
            h: 1,
            i: 0,
            h2: 3,
        },
        Reply::Done,
    ),
    (
        Event::Link {
            s: 1,
            h: 1,
            i: 1,
            h2: 1,
        },
        Reply::Done,
    ),
    (
        Event::Link {
            s: 1,
            h: 3,
            i: 1,
            h2: 0,
        },
        Reply::Done,
    ),
    (
        Event::Link {
            s: 1,
            h: 2,
            i: 0,
            h2: 0,
        },
        Reply::Done,
    ),
    (Event::Seal { s: 1 }, Reply::Sealed { n: 1 }),
    (Event::Force, Reply::Durable { n: 1 }),
    (Event::Begin { s: 1 }, Reply::Begun { n: 2 }),
    (Event::Root { s: 1, h: 0 }, Reply::Done),
    (Event::New { s: 1, h: 1, len: 1 }, Reply::Done),
    (
        Event::Link {
            s: 1,
            h: 0,
            i: 0,
            h2: 1,
        },
        Reply::Done,
    ),
    (
        Event::Link {
            s: 1,
            h: 0,
            i: 1,
            h2: 1,
        },
        Reply::Done,
    ),
    (Event::Force, Reply::Durable { n: 1 }),
];

/// Transaction 3 finds these objects, and appends one more.
const SECOND_SESSION: [Step; 12] = [
    (Event::Begin { s: 1 }, Reply::Begun { n: 3 }),
    (Event::Root { s: 1, h: 0 }, Reply::Done),
    (
        Event::Get {
            s: 1,
            h: 0,
            i: 0,
            h2: 1,
        },
        Reply::Null,
    ),
    (
        Event::Get {
            s: 1,
            h: 0,
            i: 1,
            h2: 1,
        },
        Reply::Reference,
    ),
    (
        Event::Get {
            s: 1,
            h: 1,
            i: 0,
            h2: 2,
        },
        Reply::Reference,
    ),
    (
        Event::Get {
            s: 1,
            h: 2,
            i: 0,
            h2: 3,
        },
        Reply::Int { v: 5 },
    ),
    (
        Event::Get {
            s: 1,
            h: 2,
            i: 1,
            h2: 3,
        },
        Reply::Reference,
    ),
    (Event::Same { s: 1, h: 0, h2: 3 }, Reply::Yes),
    (Event::New { s: 1, h: 3, len: 1 }, Reply::Done),
    (
        Event::Link {
            s: 1,
            h: 2,
            i: 0,
            h2: 3,
        },
        Reply::Done,
    ),
    (Event::Seal { s: 1 }, Reply::Sealed { n: 1 }),
    (Event::Force, Reply::Durable { n: 1 }),
];

const FIRST_GRAPH: &str = "graph 3\n0: - @1 - -\n1: @2 @1\n2: 5 @0\n";

const SECOND_GRAPH: &str = "graph 4\n0: - @1 - -\n1: @2 @1\n2: @3 @0\n3: -\n";

/// Makes these steps, which get these answers, and stops the disk and restarts it.
pub fn play(
    rt: &impl Abort,
    alloc: Global,
    disk: MemoryDisk,
    steps: &[Step],
) -> Result<MemoryDisk, AllocError> {
    let mut heap = open(rt, alloc, disk);
    for (event, reply) in steps {
        let found = ask(rt, &mut heap, *event)?;
        compare(rt, (*event, found), (*event, *reply));
    }
    Ok(crash(heap))
}

/// Plays both sessions on one disk, and compares what each of them leaves.
fn check_both(rt: &impl Abort, alloc: Global, pick: Pick) -> Result<(), Fail> {
    let disk = make_heap(rt, alloc, pick)?;
    let disk = play(rt, alloc, disk, &FIRST_SESSION)?;
    let disk = expect(rt, alloc, disk, 1, FIRST_GRAPH)?;
    let disk = play(rt, alloc, disk, &SECOND_SESSION)?;
    expect(rt, alloc, disk, 2, SECOND_GRAPH)?;
    Ok(())
}

#[test]
fn what_was_sealed_is_reached(rt: HostRuntime) -> Result<(), Fail> {
    for pick in &PICKS {
        check_both(&rt, rt.alloc(), *pick)?;
    }
    Ok(())
}

/// The most pages of a space.
const MOST_PAGES: u32 = 16_384;

/// The bytes of a heap of that many pages: the superblock, the log, and two frames for each page of both spaces.
const LARGEST_BYTES: usize = 34_604_096;

fn make_largest(alloc: Global) -> Result<MemoryDisk, AllocError> {
    let zeros = vec![in alloc; 0u8; LARGEST_BYTES]?;
    let room = LARGEST_BYTES + 65_536;
    let none = Vec::new(alloc);
    MemoryDisk::of(alloc, zeros, Pick::Synced, room, none, Vec::new(alloc))
}

/// A transaction in the largest heap.
const LARGEST_STEPS: [Step; 6] = [
    (Event::Begin { s: 1 }, Reply::Begun { n: 1 }),
    (Event::Root { s: 1, h: 0 }, Reply::Done),
    (Event::New { s: 1, h: 1, len: 1 }, Reply::Done),
    (
        Event::Link {
            s: 1,
            h: 0,
            i: 3,
            h2: 1,
        },
        Reply::Done,
    ),
    (Event::Seal { s: 1 }, Reply::Sealed { n: 1 }),
    (Event::Force, Reply::Durable { n: 1 }),
];

#[test]
fn the_largest_heap_is_made_and_opened(rt: HostRuntime) -> Result<(), Fail> {
    let disk = format(&rt, make_largest(rt.alloc())?, MOST_PAGES);
    let disk = play(&rt, rt.alloc(), disk, &LARGEST_STEPS)?;
    expect(&rt, rt.alloc(), disk, 1, "graph 2\n0: - - - @1\n1: -\n")?;
    Ok(())
}
