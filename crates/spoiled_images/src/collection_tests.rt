//! Records of a collection in an image's last batch: the image is damaged at the record, or at the batch if it is no record.
use crate::images::{ABORTED, LOG_AT, made_image};
use crate::judging::{Kind, Part, expect, expect_bytes, spoil_parts};
use crate::reader::Verdict;
use crate::spelling::{Numbers, spell, with_batch, with_numbers};
use std::alloc::{AllocError, Global};
use std::process::Abort;
use std::test::Fail;

/// The number of the first record of the last batch.
const LAST: u64 = 11;

const FOLLOWS_NOT: Verdict = Verdict::Record(LAST);

const NO_BATCH: Verdict = Verdict::Batch(ABORTED as u64);

const BATCH_AT: usize = LOG_AT + ABORTED;

/// What is said of the image with these records as its last batch.
fn check(
    rt: &impl Abort,
    alloc: Global,
    records: &[u8],
    verdict: Verdict,
    what: &str,
) -> Result<(), AllocError> {
    let made = made_image(rt, alloc)?;
    let image = with_batch(rt, alloc, &made, BATCH_AT, records)?;
    expect(rt, alloc, &image, (what, records.len(), 0), verdict)
}

const COPY: (usize, u64) = (1, 7);

const SCAN: (usize, u64) = (1, 8);

const FLIP: (usize, u64) = (1, 9);

/// The greatest address.
const FAR: (usize, u64) = (4, 4_294_967_295);

/// Whole records, none of which may follow. Without its last byte each is no record.
const WHOLE: [(&str, Numbers<'static>); 7] = [
    ("copy without fields", &[COPY, (4, 0), FAR, (8, 1), (8, 0)]),
    (
        "copy",
        &[
            COPY,
            (4, 0),
            FAR,
            (8, 13),
            (8, u64::MAX),
            (8, 0),
            (8, 30),
            (8, 39),
        ],
    ),
    ("empty scan", &[SCAN, (4, 1), (2, 0)]),
    (
        "scan",
        &[
            SCAN,
            (4, 1),
            (2, 4),
            (4, 0),
            (8, 0),
            FAR,
            (8, 9),
            (4, 66),
            (8, 26),
            (4, 2),
            (8, 43),
        ],
    ),
    ("empty flip", &[FLIP, (4, 0)]),
    (
        "flip",
        &[
            FLIP,
            (4, 2),
            (4, 0),
            (4, 64),
            (8, 17),
            (8, 0),
            (8, 0),
            (8, 0),
            (8, 0),
            (8, 5),
            (4, 0),
            (4, 64),
            (8, 1),
            (8, 0),
        ],
    ),
    ("collected", &[(1, 10)]),
];

/// A whole record, and the same one without its last byte.
fn check_whole(
    rt: &impl Abort,
    alloc: Global,
    (what, numbers): (&str, Numbers<'_>),
) -> Result<(), AllocError> {
    let mut record = Vec::new(alloc);
    spell(&mut record, numbers)?;
    check(rt, alloc, &record, FOLLOWS_NOT, what)?;
    record.pop();
    if record.is_empty() {
        return Ok(());
    }
    check(rt, alloc, &record, NO_BATCH, what)
}

#[test]
fn none_follows(rt: HostRuntime) -> Result<(), Fail> {
    for record in &WHOLE {
        check_whole(&rt, rt.alloc(), *record)?;
    }
    Ok(())
}

/// A record in which a number of that many bytes has one of these values, between others.
#[derive(Clone, Copy)]
struct Filled {
    what: &'static str,
    front: Numbers<'static>,
    size: usize,
    values: &'static [u64],
    back: Numbers<'static>,
}

/// Headers of no object.
const HEADERS: [u64; 8] = [0, 2, 3, 4, 2_045, 2_041, 5, u64::MAX];

/// Words that no field may hold.
const WORDS: [u64; 4] = [4, 16, 8_388_610, 16_387];

/// Records that are none: bad headers and words, counts that are greater than what the batch has, and one that is less.
const NONE: [Filled; 10] = [
    Filled {
        what: "header of a copy",
        front: &[COPY, (4, 0), FAR],
        size: 8,
        values: &HEADERS,
        back: &[(8, 0)],
    },
    Filled {
        what: "header of a flip",
        front: &[FLIP, (4, 1), (4, 0), (4, 64)],
        size: 8,
        values: &HEADERS,
        back: &[(8, 0)],
    },
    Filled {
        what: "word of a copy",
        front: &[COPY, (4, 0), FAR, (8, 5), (8, 0)],
        size: 8,
        values: &WORDS,
        back: &[],
    },
    Filled {
        what: "word of a flip",
        front: &[
            FLIP,
            (4, 2),
            (4, 0),
            (4, 64),
            (8, 1),
            (8, 0),
            (4, 0),
            (4, 64),
            (8, 5),
            (8, 0),
        ],
        size: 8,
        values: &WORDS,
        back: &[],
    },
    Filled {
        what: "word of a scan",
        front: &[SCAN, (4, 1), (2, 1), (4, 3)],
        size: 8,
        values: &WORDS,
        back: &[],
    },
    Filled {
        what: "no kind",
        front: &[],
        size: 1,
        values: &[11],
        back: &[],
    },
    Filled {
        what: "count of a scan",
        front: &[SCAN, (4, 1)],
        size: 2,
        values: &[2, 256, 65_535],
        back: &[(4, 3), (8, 9)],
    },
    Filled {
        what: "count of a flip",
        front: &[FLIP],
        size: 4,
        values: &[2, 65_537, 4_294_967_295],
        back: &[(4, 0), (4, 64), (8, 1), (8, 0)],
    },
    Filled {
        what: "count alone",
        front: &[FLIP],
        size: 4,
        values: &[4_294_967_295],
        back: &[],
    },
    // The write that is not counted begins with a byte of no kind.
    Filled {
        what: "scan of none",
        front: &[SCAN, (4, 1), (2, 0), (4, 3 << 24)],
        size: 8,
        values: &[9],
        back: &[],
    },
];

/// The image is damaged at the batch of each of these records.
fn check_none(rt: &impl Abort, alloc: Global, filled: &Filled) -> Result<(), AllocError> {
    for value in filled.values {
        let mut record = Vec::new(alloc);
        spell(&mut record, filled.front)?;
        spell(&mut record, &[(filled.size, *value)])?;
        spell(&mut record, filled.back)?;
        check(rt, alloc, &record, NO_BATCH, filled.what)?;
    }
    Ok(())
}

#[test]
fn none_is_a_record(rt: HostRuntime) -> Result<(), Fail> {
    for filled in &NONE {
        check_none(&rt, rt.alloc(), filled)?;
    }
    Ok(())
}

/// A flip, a scan and an end of a collection.
const THREE: Numbers<'static> = &[
    FLIP,
    (4, 2),
    (4, 0),
    (4, 64),
    (8, 9),
    (8, 0),
    (8, 0),
    (8, 30),
    (4, 0),
    (4, 64),
    (8, 1),
    (8, 0),
    SCAN,
    (4, 1),
    (2, 2),
    (4, 66),
    (8, 26),
    (4, 3),
    (8, 9),
    (1, 10),
];

/// Where they end, after their batch's gate and length.
const THREE_END: usize = BATCH_AT + 5 + 101;

/// The last of them, and the gate after them.
const ENDS: [(usize, u8); 2] = [(THREE_END - 1, 10), (THREE_END, 0)];

/// All bytes of their batch, and the next gate.
const BATCH: [Part; 1] = [Part {
    bytes: &[(BATCH_AT, THREE_END + 1)],
    kinds: &[
        (Kind::Heap, true),
        (Kind::Batch, true),
        (Kind::Record, true),
    ],
}];

#[test]
fn spoiled_bytes(rt: HostRuntime) -> Result<(), Fail> {
    let alloc = rt.alloc();
    let made = made_image(&rt, alloc)?;
    let image = with_numbers(&rt, alloc, &made, BATCH_AT, THREE)?;
    expect_bytes(&rt, &image, &ENDS);
    spoil_parts(&rt, alloc, &image, &BATCH)
}
