//! The image of a small heap, whose log ends with two losers.
use crate::heaps::played;
use graph_model::Event;
use std::alloc::{AllocError, Global};
use std::process::Abort;

/// The bytes of an image of one page with this log.
const IMAGE_BYTES: usize = 64 + LOG_BYTES as usize + 2_112;

pub const LOG_BYTES: u32 = 448;

pub const LOG_AT: usize = 64;

/// The bytes of the log of the first batch, and of the first two.
pub const COMMITTED: usize = 176;

pub const ABORTED: usize = 232;

/// The bytes of the log that the events take: three batches, and the closed gate after them.
pub const USED: usize = 346;

/// What the rollback of the two losers takes, with two writes each.
pub const ROLLBACK: usize = 96;

/// Transaction 1 promotes two objects, 2 is aborted, and 3 and 4 have two writes each on the disk, the last one of an object that
/// was not promoted.
const EVENTS: [Event; 27] = [
    Event::Begin { s: 1 },
    Event::Root { s: 1, h: 0 },
    Event::New { s: 1, h: 1, len: 1 },
    Event::New { s: 1, h: 2, len: 2 },
    Event::Put {
        s: 1,
        h: 1,
        i: 0,
        v: 5,
    },
    Event::Link {
        s: 1,
        h: 2,
        i: 1,
        h2: 1,
    },
    Event::Link {
        s: 1,
        h: 0,
        i: 0,
        h2: 1,
    },
    Event::Link {
        s: 1,
        h: 0,
        i: 1,
        h2: 2,
    },
    Event::Seal { s: 1 },
    Event::Force,
    Event::Begin { s: 1 },
    Event::Root { s: 1, h: 0 },
    Event::Put {
        s: 1,
        h: 0,
        i: 2,
        v: 9,
    },
    Event::Abort { s: 1 },
    Event::Force,
    Event::Begin { s: 1 },
    Event::Root { s: 1, h: 0 },
    Event::Get {
        s: 1,
        h: 0,
        i: 0,
        h2: 1,
    },
    Event::Begin { s: 2 },
    Event::Root { s: 2, h: 0 },
    Event::Get {
        s: 2,
        h: 0,
        i: 1,
        h2: 1,
    },
    Event::Put {
        s: 1,
        h: 1,
        i: 0,
        v: 6,
    },
    Event::Put {
        s: 2,
        h: 1,
        i: 0,
        v: 7,
    },
    Event::Put {
        s: 1,
        h: 1,
        i: 0,
        v: 8,
    },
    Event::New { s: 2, h: 2, len: 1 },
    Event::Link {
        s: 2,
        h: 1,
        i: 1,
        h2: 2,
    },
    Event::Force,
];

pub fn made_image(rt: &impl Abort, alloc: Global) -> Result<Vec<u8>, AllocError> {
    let disk = played(rt, alloc, IMAGE_BYTES, (1, LOG_BYTES), &EVENTS)?;
    disk.contents().to_vec(alloc)
}
