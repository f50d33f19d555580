//! Images within a collection, spoiled byte by byte.
use crate::heaps::played;
use crate::judging::{Kind, Part, check_parts};
use graph_model::Event;
use std::alloc::{AllocError, Global};
use std::process::Abort;
use std::test::Fail;

const PAGES: u32 = 2;

const LOG_BYTES: u32 = 3_000;

pub const LOG_AT: usize = 64;

pub const FRAMES_AT: usize = LOG_AT + LOG_BYTES as usize;

const IMAGE_BYTES: usize = FRAMES_AT + 2_112 * PAGES as usize;

/// Transaction 1 promotes a chain of objects, of which one crosses a page. Transaction 2 writes over a reference, and a flip follows. A scan
/// copies a part of the chain, and transaction 2 writes again after it.
const EVENTS: [Event; 24] = [
    Event::Begin { s: 1 },
    Event::Root { s: 1, h: 0 },
    Event::New { s: 1, h: 1, len: 1 },
    Event::New {
        s: 1,
        h: 2,
        len: 50,
    },
    Event::New { s: 1, h: 3, len: 2 },
    Event::New { s: 1, h: 4, len: 1 },
    Event::Link {
        s: 1,
        h: 0,
        i: 0,
        h2: 1,
    },
    Event::Link {
        s: 1,
        h: 1,
        i: 0,
        h2: 2,
    },
    Event::Link {
        s: 1,
        h: 2,
        i: 0,
        h2: 3,
    },
    Event::Link {
        s: 1,
        h: 3,
        i: 0,
        h2: 4,
    },
    Event::Link {
        s: 1,
        h: 0,
        i: 1,
        h2: 4,
    },
    Event::Seal { s: 1 },
    Event::Begin { s: 2 },
    Event::Root { s: 2, h: 0 },
    Event::Get {
        s: 2,
        h: 0,
        i: 1,
        h2: 1,
    },
    Event::Clear { s: 2, h: 0, i: 1 },
    Event::Flip,
    Event::Force,
    Event::Flush { p: 2 },
    Event::Scan,
    Event::Put {
        s: 2,
        h: 1,
        i: 0,
        v: 7,
    },
    Event::Force,
    Event::Flush { p: 0 },
    Event::Flush { p: 2 },
];

/// The image that they leave, with transaction 2 as a loser.
pub fn collecting_image(rt: &impl Abort, alloc: Global) -> Result<Vec<u8>, AllocError> {
    let disk = played(rt, alloc, IMAGE_BYTES, (PAGES, LOG_BYTES), &EVENTS)?;
    disk.contents().to_vec(alloc)
}

/// The kinds that occur wherever words are spoiled.
const OF_WORDS: [(Kind, bool); 2] = [(Kind::Heap, true), (Kind::Address, true)];

/// Spoils a part of the image. Each has a test of its own, since unproved code is slow, and a test has a minute.
fn check_part(rt: &impl Abort, alloc: Global, part: &[Part]) -> Result<(), Fail> {
    let image = collecting_image(rt, alloc)?;
    check_parts(rt, alloc, &image, part)
}

const RECORDS: [Part; 1] = [Part {
    bytes: &[(LOG_AT + 640, LOG_AT + 840)],
    kinds: &[
        (Kind::Heap, true),
        (Kind::Batch, true),
        (Kind::Record, true),
    ],
}];

const MORE_RECORDS: [Part; 1] = [Part {
    bytes: &[(LOG_AT + 1_200, LOG_AT + 1_400)],
    kinds: &OF_WORDS,
}];

const WORDS: [Part; 1] = [Part {
    bytes: &[(FRAMES_AT, FRAMES_AT + 200)],
    kinds: &OF_WORDS,
}];

/// The second frame of the page that the current space begins with, which is the one that counts.
const CURRENT: usize = FRAMES_AT + 5 * 528;

const CURRENT_WORDS: [Part; 1] = [Part {
    bytes: &[(CURRENT, CURRENT + 200)],
    kinds: &OF_WORDS,
}];

#[test]
fn records_of_a_collection(rt: HostRuntime) -> Result<(), Fail> {
    check_part(&rt, rt.alloc(), &RECORDS)
}

#[test]
fn more_records_of_a_collection(rt: HostRuntime) -> Result<(), Fail> {
    check_part(&rt, rt.alloc(), &MORE_RECORDS)
}

#[test]
fn words_of_both_spaces(rt: HostRuntime) -> Result<(), Fail> {
    check_part(&rt, rt.alloc(), &WORDS)
}

#[test]
fn words_of_the_current_space(rt: HostRuntime) -> Result<(), Fail> {
    check_part(&rt, rt.alloc(), &CURRENT_WORDS)
}
