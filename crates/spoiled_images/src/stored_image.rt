//! An image with stored pages, some of them twice.
use crate::heaps::played;
use crate::judging::poke;
use graph_model::Event;
use std::alloc::{AllocError, Global};
use std::process::Abort;

/// A heap of two pages a space, so of four pages. Its objects lie on the first two.
const PAGES: u32 = 2;

const LOG_BYTES: u32 = 1_024;

pub const PAGE_WORDS: usize = 64;

/// The bytes of its image.
pub const IMAGE_BYTES: usize = FRAMES_AT + 8 * FRAME_BYTES;

/// Where the frames of all pages begin.
pub const FRAMES_AT: usize = 64 + 1_024;

pub const FRAME_BYTES: usize = 528;

/// How many records its log holds.
pub const RECORDS: u64 = 10;

/// Transaction 1 promotes an object that lies on both pages, by records 1 to 4. Transaction 2 writes the root and that object, by records
/// 5 to 7. What transaction 3 writes, by records 8 to 10, has to be taken back. Page 0 is stored after records 4 and 8, and page 1 after 4 and 7.
const EVENTS: [Event; 25] = [
    Event::Begin { s: 1 },
    Event::Root { s: 1, h: 0 },
    Event::New {
        s: 1,
        h: 1,
        len: 60,
    },
    Event::Put {
        s: 1,
        h: 1,
        i: 0,
        v: 5,
    },
    Event::Link {
        s: 1,
        h: 0,
        i: 0,
        h2: 1,
    },
    Event::Seal { s: 1 },
    Event::Force,
    Event::Flush { p: 0 },
    Event::Flush { p: 1 },
    Event::Begin { s: 1 },
    Event::Root { s: 1, h: 0 },
    Event::Get {
        s: 1,
        h: 0,
        i: 0,
        h2: 1,
    },
    Event::Put {
        s: 1,
        h: 0,
        i: 1,
        v: 7,
    },
    Event::Put {
        s: 1,
        h: 1,
        i: 59,
        v: 8,
    },
    Event::Seal { s: 1 },
    Event::Force,
    Event::Flush { p: 1 },
    Event::Begin { s: 1 },
    Event::Root { s: 1, h: 0 },
    Event::Get {
        s: 1,
        h: 0,
        i: 0,
        h2: 1,
    },
    Event::Put {
        s: 1,
        h: 1,
        i: 0,
        v: 9,
    },
    Event::Flush { p: 0 },
    Event::Put {
        s: 1,
        h: 1,
        i: 58,
        v: 10,
    },
    Event::Put {
        s: 1,
        h: 0,
        i: 2,
        v: 11,
    },
    Event::Force,
];

/// The page of the other space that is stored, once, and its LSN. No record writes it.
const OTHER_PAGE: usize = 2;

const OTHER_LSN: u64 = 9;

/// Where the LSN of a frame stands, and where its words do.
pub const LSN_AT: usize = 8;

pub const WORDS_AT: usize = 16;

/// Where a frame begins: the first or second one of this page.
pub fn frame_at(page: usize, second: bool) -> usize {
    let place = if second { 1 } else { 0 };
    page.saturating_mul(2)
        .saturating_add(place)
        .saturating_mul(FRAME_BYTES)
        .saturating_add(FRAMES_AT)
}

/// Puts a gate and an LSN into the frame that begins there.
pub fn poke_front(rt: &impl Abort, image: &mut [u8], at: usize, gate: u8, lsn: u64) {
    poke(rt, image, at, &[gate]);
    poke(rt, image, at.saturating_add(LSN_AT), &lsn.to_le_bytes());
}

/// Puts a word into the frame that begins there.
pub fn poke_word(rt: &impl Abort, image: &mut [u8], at: usize, index: usize, word: u64) {
    let place = at
        .saturating_add(WORDS_AT)
        .saturating_add(index.saturating_mul(8));
    poke(rt, image, place, &word.to_le_bytes());
}

/// The image, in which pages 0 and 1 have two open frames, page 2 has one and page 3 none.
pub fn stored_image(rt: &impl Abort, alloc: Global) -> Result<Vec<u8>, AllocError> {
    let disk = played(rt, alloc, IMAGE_BYTES, (PAGES, LOG_BYTES), &EVENTS)?;
    let mut image = disk.contents().to_vec(alloc)?;
    let other = frame_at(OTHER_PAGE, false);
    poke_front(rt, &mut image, other, 1, OTHER_LSN);
    for index in 0..PAGE_WORDS {
        poke_word(rt, &mut image, other, index, 4);
    }
    Ok(image)
}
