//! Images in whose frames bytes are spoiled. The heap opens or refuses each exactly as the second reading says.
use crate::judging::{Kind, Part, Tally, check_parts, expect, expect_bytes, poke};
use crate::reader::Verdict;
use crate::stored_image::{
    FRAME_BYTES, FRAMES_AT, LSN_AT, PAGE_WORDS, RECORDS, WORDS_AT, frame_at, poke_front, poke_word,
    stored_image,
};
use std::alloc::{AllocError, Global};
use std::process::Abort;
use std::test::Fail;

/// A word that no field may hold, and that is no header.
const BAD_WORD: u64 = 4;

const GATES: [u8; 4] = [0, 1, 2, 255];

/// LSNs of no record, of each one, of the next, and far past the log.
const LSNS: [u64; 15] = [
    0,
    1,
    2,
    3,
    4,
    5,
    6,
    7,
    8,
    9,
    RECORDS,
    RECORDS + 1,
    256,
    1 << 32,
    u64::MAX,
];

/// How many frames the pages have.
const FRAMES: usize = 8;

/// Of each frame its gate, and the lowest byte of its LSN: the first and the second one of each page in turn.
const FRONTS: [(usize, u8); 2 * FRAMES] = [
    (FRAMES_AT, 1),
    (FRAMES_AT + LSN_AT, 3),
    (FRAMES_AT + FRAME_BYTES, 1),
    (FRAMES_AT + FRAME_BYTES + LSN_AT, 8),
    (FRAMES_AT + 2 * FRAME_BYTES, 1),
    (FRAMES_AT + 2 * FRAME_BYTES + LSN_AT, 2),
    (FRAMES_AT + 3 * FRAME_BYTES, 1),
    (FRAMES_AT + 3 * FRAME_BYTES + LSN_AT, 6),
    (FRAMES_AT + 4 * FRAME_BYTES, 1),
    (FRAMES_AT + 4 * FRAME_BYTES + LSN_AT, 9),
    (FRAMES_AT + 5 * FRAME_BYTES, 0),
    (FRAMES_AT + 5 * FRAME_BYTES + LSN_AT, 0),
    (FRAMES_AT + 6 * FRAME_BYTES, 0),
    (FRAMES_AT + 6 * FRAME_BYTES + LSN_AT, 0),
    (FRAMES_AT + 7 * FRAME_BYTES, 0),
    (FRAMES_AT + 7 * FRAME_BYTES + LSN_AT, 0),
];

#[test]
fn pages_are_stored(rt: HostRuntime) -> Result<(), Fail> {
    let alloc = rt.alloc();
    let image = stored_image(&rt, alloc)?;
    expect(&rt, alloc, &image, ("stored", 0, 0), Verdict::Heap)?;
    expect_bytes(&rt, &image, &FRONTS);
    Ok(())
}

/// Where the frames of page 1, of page 2 and of page 3 begin.
const PAGE_1: usize = FRAMES_AT + 2 * FRAME_BYTES;

const PAGE_2: usize = FRAMES_AT + 4 * FRAME_BYTES;

const PAGE_3: usize = FRAMES_AT + 6 * FRAME_BYTES;

/// The bytes of a frame before its words, and of two, six or ten words.
const TWO: usize = WORDS_AT + 2 * 8;

const SIX: usize = WORDS_AT + 6 * 8;

const TEN: usize = WORDS_AT + 10 * 8;

/// The kinds that occur if a page is used, and if it is of the other space.
const USED: [(Kind, bool); 3] = [
    (Kind::Heap, true),
    (Kind::Page, true),
    (Kind::Address, true),
];

const UNUSED: [(Kind, bool); 2] = [(Kind::Heap, true), (Kind::Address, false)];

/// The first bytes of both frames of a page.
const USED_PAGES: [Part; 2] = [
    Part {
        bytes: &[
            (FRAMES_AT, FRAMES_AT + TEN),
            (FRAMES_AT + FRAME_BYTES, FRAMES_AT + FRAME_BYTES + TEN),
        ],
        kinds: &USED,
    },
    Part {
        bytes: &[
            (PAGE_1, PAGE_1 + SIX),
            (PAGE_1 + FRAME_BYTES, PAGE_1 + FRAME_BYTES + SIX),
        ],
        kinds: &USED,
    },
];

const OTHER_PAGES: [Part; 2] = [
    Part {
        bytes: &[
            (PAGE_2, PAGE_2 + TWO),
            (PAGE_2 + FRAME_BYTES, PAGE_2 + FRAME_BYTES + TWO),
        ],
        kinds: &UNUSED,
    },
    Part {
        bytes: &[
            (PAGE_3, PAGE_3 + TWO),
            (PAGE_3 + FRAME_BYTES, PAGE_3 + FRAME_BYTES + TWO),
        ],
        kinds: &UNUSED,
    },
];

#[test]
fn frames_of_the_used_pages(rt: HostRuntime) -> Result<(), Fail> {
    let image = stored_image(&rt, rt.alloc())?;
    check_parts(&rt, rt.alloc(), &image, &USED_PAGES)
}

#[test]
fn frames_of_the_other_space(rt: HostRuntime) -> Result<(), Fail> {
    let image = stored_image(&rt, rt.alloc())?;
    check_parts(&rt, rt.alloc(), &image, &OTHER_PAGES)
}

/// Judges the image for each gate and each LSN of a frame.
fn any_front(
    rt: &impl Abort,
    alloc: Global,
    tally: &mut Tally,
    image: &[u8],
    at: usize,
) -> Result<(), AllocError> {
    let mut spoiled = image.to_vec(alloc)?;
    for gate in &GATES {
        for lsn in &LSNS {
            poke_front(rt, &mut spoiled, at, *gate, *lsn);
            tally.add(rt, alloc, &spoiled, ("LSN in", at, *lsn))?;
        }
    }
    Ok(())
}

/// How often each kind occurs: four of the LSNs are past the log, which is reported if the gate is open.
const OF_FRONTS: [(Kind, usize); 2] = [
    (Kind::Page, FRAMES * 4),
    (Kind::Heap, FRAMES * (4 * 15 - 4)),
];

#[test]
fn any_gate_before_any_lsn(rt: HostRuntime) -> Result<(), Fail> {
    let alloc = rt.alloc();
    let image = stored_image(&rt, alloc)?;
    let mut tally = Tally::new(alloc);
    for page in 0..FRAMES / 2 {
        any_front(&rt, alloc, &mut tally, &image, frame_at(page, false))?;
        any_front(&rt, alloc, &mut tally, &image, frame_at(page, true))?;
    }
    tally.expect_counts(&rt, &OF_FRONTS);
    Ok(())
}

/// The page has one open frame, with this LSN. In turn each of its words is one that no field may hold: that is found exactly if no record of a
/// greater number writes the word, and no rollback does.
fn bad_words(
    rt: &impl Abort,
    alloc: Global,
    tally: &mut Tally,
    image: &mut [u8],
    (at, lsn): (usize, u64),
) -> Result<(), AllocError> {
    poke_front(rt, image, at, 1, lsn);
    for index in 0..PAGE_WORDS {
        let mut spoiled = image.to_vec(alloc)?;
        poke_word(rt, &mut spoiled, at, index, BAD_WORD);
        tally.add(rt, alloc, &spoiled, ("word", index, lsn))?;
    }
    Ok(())
}

/// What is reported if the first frame of a page is closed.
fn check_lacks(rt: &impl Abort, alloc: Global, page: usize) -> Result<(), Fail> {
    let mut image = stored_image(rt, alloc)?;
    poke(rt, &mut image, frame_at(page, false), &[0]);
    let mut tally = Tally::new(alloc);
    for lsn in &LSNS {
        bad_words(
            rt,
            alloc,
            &mut tally,
            &mut image,
            (frame_at(page, true), *lsn),
        )?;
    }
    tally.expect_kinds(rt, &USED);
    Ok(())
}

#[test]
fn what_the_used_pages_lack(rt: HostRuntime) -> Result<(), Fail> {
    for page in 0..2 {
        check_lacks(&rt, rt.alloc(), page)?;
    }
    Ok(())
}

/// The word of the root's last field, which no record writes.
const UNWRITTEN: usize = 5;

/// LSNs of both frames of page 0, whether it is the second one in which that word is bad, and what is said: the newer one counts.
const NEWER: [(u64, u64, bool, Verdict); 16] = [
    (3, 3, false, Verdict::Address(0)),
    (3, 3, true, Verdict::Heap),
    (3, 4, true, Verdict::Address(0)),
    (3, 4, false, Verdict::Heap),
    (4, 3, false, Verdict::Address(0)),
    (4, 3, true, Verdict::Heap),
    (0, 0, false, Verdict::Address(0)),
    (0, 0, true, Verdict::Heap),
    (0, 1, true, Verdict::Address(0)),
    (0, 1, false, Verdict::Heap),
    (9, 10, true, Verdict::Address(0)),
    (9, 10, false, Verdict::Heap),
    (10, 10, false, Verdict::Address(0)),
    (10, 10, true, Verdict::Heap),
    (10, 9, false, Verdict::Address(0)),
    (10, 9, true, Verdict::Heap),
];

/// Puts LSNs into both frames of page 0, and a bad word into one of them.
fn poke_newer(rt: &impl Abort, image: &mut [u8], (first, second): (u64, u64), bad: bool) {
    poke_front(rt, image, frame_at(0, false), 1, first);
    poke_front(rt, image, frame_at(0, true), 1, second);
    poke_word(rt, image, frame_at(0, bad), UNWRITTEN, BAD_WORD);
}

#[test]
fn the_newer_frame_counts(rt: HostRuntime) -> Result<(), Fail> {
    let alloc = rt.alloc();
    let image = stored_image(&rt, alloc)?;
    for (first, second, bad, verdict) in &NEWER {
        let mut spoiled = image.to_vec(alloc)?;
        poke_newer(&rt, &mut spoiled, (*first, *second), *bad);
        let case = ("second LSN", *second as usize, *first);
        expect(&rt, alloc, &spoiled, case, *verdict)?;
    }
    Ok(())
}

#[test]
fn the_first_page_ahead_is_told(rt: HostRuntime) -> Result<(), Fail> {
    let alloc = rt.alloc();
    let mut image = stored_image(&rt, alloc)?;
    for page in (0..4u32).rev() {
        let at = frame_at(page as usize, true);
        poke_front(&rt, &mut image, at, 1, RECORDS + 1);
        let case = ("ahead", page as usize, 0);
        expect(&rt, alloc, &image, case, Verdict::Page(page))?;
    }
    Ok(())
}
