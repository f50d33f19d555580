//! Two sessions side by side, on a disk that is stopped and restarted: what one has sealed is there, and what the other wrote is not.
use crate::opening_tests::{PICKS, ask, compare, expect, make_heap, open};
use crate::reached_tests::{Step, play};
use graph_model::{Event, Refusal, Reply};
use std::test::Fail;

/// Transaction 1 makes two objects. Then session 1 writes the first and session 2 the second, and session 2 is refused what session 1
/// holds until that is sealed. A force brings the writes of both to the disk.
const SIDE_BY_SIDE: [Step; 21] = [
    (Event::Begin { s: 1 }, Reply::Begun { n: 1 }),
    (Event::Root { s: 1, h: 0 }, Reply::Done),
    (Event::New { s: 1, h: 1, len: 1 }, Reply::Done),
    (Event::New { s: 1, h: 2, len: 1 }, Reply::Done),
    (
        Event::Link {
            s: 1,
            h: 0,
            i: 0,
            h2: 1,
        },
        Reply::Done,
    ),
    (
        Event::Link {
            s: 1,
            h: 0,
            i: 1,
            h2: 2,
        },
        Reply::Done,
    ),
    (Event::Seal { s: 1 }, Reply::Sealed { n: 1 }),
    (Event::Begin { s: 1 }, Reply::Begun { n: 2 }),
    (Event::Begin { s: 2 }, Reply::Begun { n: 3 }),
    (Event::Root { s: 1, h: 0 }, Reply::Done),
    (Event::Root { s: 2, h: 0 }, Reply::Done),
    (
        Event::Get {
            s: 1,
            h: 0,
            i: 0,
            h2: 1,
        },
        Reply::Reference,
    ),
    (
        Event::Get {
            s: 2,
            h: 0,
            i: 1,
            h2: 1,
        },
        Reply::Reference,
    ),
    (
        Event::Put {
            s: 1,
            h: 1,
            i: 0,
            v: 5,
        },
        Reply::Done,
    ),
    (
        Event::Put {
            s: 2,
            h: 1,
            i: 0,
            v: 6,
        },
        Reply::Done,
    ),
    (
        Event::Get {
            s: 2,
            h: 0,
            i: 0,
            h2: 2,
        },
        Reply::Reference,
    ),
    (
        Event::Get {
            s: 2,
            h: 2,
            i: 0,
            h2: 3,
        },
        Reply::Refused {
            why: Refusal::Busy { holder: 2 },
        },
    ),
    (
        Event::Put {
            s: 2,
            h: 0,
            i: 0,
            v: 9,
        },
        Reply::Refused {
            why: Refusal::Busy { holder: 2 },
        },
    ),
    (Event::Seal { s: 1 }, Reply::Sealed { n: 2 }),
    (
        Event::Get {
            s: 2,
            h: 2,
            i: 0,
            h2: 3,
        },
        Reply::Int { v: 5 },
    ),
    (Event::Force, Reply::Durable { n: 2 }),
];

const GRAPH: &str = "graph 3\n0: @1 @2 - -\n1: 5\n2: -\n";

#[test]
fn what_the_other_session_wrote_is_taken_back(rt: HostRuntime) -> Result<(), Fail> {
    for pick in &PICKS {
        let disk = make_heap(&rt, rt.alloc(), *pick)?;
        let disk = play(&rt, rt.alloc(), disk, &SIDE_BY_SIDE)?;
        expect(&rt, rt.alloc(), disk, 2, GRAPH)?;
    }
    Ok(())
}

/// Some numbers, and whether a session of that number is active after session 32 began.
const ACTIVE: [(u32, bool); 5] = [(0, false), (1, false), (31, false), (32, true), (33, false)];

#[test]
fn the_last_session_is_one(rt: HostRuntime) -> Result<(), Fail> {
    let mut heap = open(&rt, rt.alloc(), make_heap(&rt, rt.alloc(), PICKS[0])?);
    let begun = ask(&rt, &mut heap, Event::Begin { s: 32 })?;
    compare(&rt, begun, Reply::Begun { n: 1 });
    for (number, is_active) in &ACTIVE {
        let found = heap.active(*number);
        compare(&rt, (*number, found), (*number, *is_active));
    }
    Ok(())
}
