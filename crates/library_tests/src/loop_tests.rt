//! Rounds of a program over the heap, on a disk that loses what was not synced.
use crate::library_loop::rounds;
use crate::opening_tests::{expect, make_heap};
use disk_model::Pick;
use graph_model::Event;
use std::test::Fail;

/// A transaction of session 1 that is on the disk, and with it one of session 2 that no force has reached.
static EVENTS: [Event; 9] = [
    Event::Begin { s: 2 },
    Event::Begin { s: 1 },
    Event::Root { s: 1, h: 0 },
    Event::Put {
        s: 1,
        h: 0,
        i: 0,
        v: 7,
    },
    Event::Seal { s: 1 },
    Event::Force,
    Event::Root { s: 2, h: 0 },
    Event::Clear { s: 2, h: 0, i: 0 },
    Event::Seal { s: 2 },
];

#[test]
fn three_rounds(rt: HostRuntime) -> Result<(), Fail> {
    let alloc = rt.alloc();
    let disk = make_heap(&rt, alloc, Pick::Synced)?;
    let Ok(disk) = rounds(alloc, disk, &EVENTS, 3) else {
        panic!(rt; "not gone on");
    };
    expect(&rt, alloc, disk, 3, "graph 1\n0: 7 - - -\n")?;
    Ok(())
}
