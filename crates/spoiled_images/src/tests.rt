//! Spoiled images, each of which the heap opens or refuses exactly as the second reading says.
use crate::images::{ABORTED, COMMITTED, LOG_AT, LOG_BYTES, ROLLBACK, USED, made_image};
use crate::judging::{Kind, Part, Tally, check_parts, expect_bytes, poke};
use crate::reader::Verdict;
use crate::spelling::{Numbers, expect_batches, with_numbers};
use std::alloc::Global;
use std::process::Abort;
use std::test::Fail;

/// Where END is after both objects are promoted.
const END: u32 = 13;

/// The closed gate that ends the log, and the open one of its last batch.
const GATES: [(usize, u8); 2] = [(LOG_AT + USED - 1, 0), (LOG_AT + ABORTED, 1)];

/// The kinds that occur wherever records are spoiled.
const OF_RECORDS: [(Kind, bool); 3] = [
    (Kind::Heap, true),
    (Kind::Batch, true),
    (Kind::Record, true),
];

/// Those that occur too where words are.
const OF_WORDS: [(Kind, bool); 5] = [
    (Kind::Heap, true),
    (Kind::Batch, true),
    (Kind::Record, true),
    (Kind::Address, true),
    (Kind::Reserve, true),
];

/// The superblock; the writes of the first batch, the objects that it promotes, its other records; the transaction that is aborted;
/// and the losers.
const PARTS: [Part; 6] = [
    Part {
        bytes: &[(0, LOG_AT)],
        kinds: &[
            (Kind::Heap, true),
            (Kind::NotHeap, true),
            (Kind::Batch, true),
        ],
    },
    Part {
        bytes: &[(LOG_AT, LOG_AT + 59)],
        kinds: &OF_WORDS,
    },
    Part {
        bytes: &[(LOG_AT + 59, LOG_AT + 133)],
        kinds: &OF_RECORDS,
    },
    Part {
        bytes: &[(LOG_AT + 133, LOG_AT + COMMITTED)],
        kinds: &OF_WORDS,
    },
    Part {
        bytes: &[(LOG_AT + COMMITTED, LOG_AT + ABORTED)],
        kinds: &OF_RECORDS,
    },
    Part {
        bytes: &[(LOG_AT + ABORTED, LOG_AT + USED + 8)],
        kinds: &OF_RECORDS,
    },
];

#[test]
fn superblock_and_log(rt: HostRuntime) -> Result<(), Fail> {
    let image = made_image(&rt, rt.alloc())?;
    expect_bytes(&rt, &image, &GATES);
    check_parts(&rt, rt.alloc(), &image, &PARTS)
}

/// How often each kind occurs, the log having each length. The disk has no byte more than the image takes.
const CUT: [(Kind, usize); 4] = [
    (Kind::NotHeap, 4 + 2),
    (Kind::Batch, USED - 64),
    (Kind::Reserve, ROLLBACK),
    (Kind::Heap, LOG_BYTES as usize + 1 - USED - ROLLBACK),
];

#[test]
fn log_is_cut(rt: HostRuntime) -> Result<(), Fail> {
    let alloc = rt.alloc();
    let mut image = made_image(&rt, alloc)?;
    let mut tally = Tally::new(alloc);
    for log_bytes in 60..LOG_BYTES + 3 {
        poke(&rt, &mut image, 16, &log_bytes.to_le_bytes());
        tally.add(&rt, alloc, &image, ("log of", log_bytes as usize, 0))?;
    }
    tally.expect_counts(&rt, &CUT);
    Ok(())
}

/// Words of null, numbers, headers, references to objects and elsewhere, references to an area, and others.
const WORDS: [u64; 14] = [0, 1, 5, 9, 17, 2_041, 2_045, 2, 26, 38, 42, 3, 8_388_610, 4];

/// Judges the image with a batch in which transaction 9 writes words into a field and is committed.
fn write_words(
    rt: &impl Abort,
    alloc: Global,
    tally: &mut Tally,
    image: &[u8],
    (object, field): (u32, u64),
) -> Result<(), Fail> {
    let at = LOG_AT + ABORTED;
    let object = u64::from(object);
    for word in &WORDS {
        let update = [
            (1, 1),
            (4, 9),
            (4, object),
            (2, field),
            (8, 0),
            (8, *word),
            (1, 5),
            (4, 9),
        ];
        let written = with_numbers(rt, alloc, image, at, &update)?;
        tally.add(rt, alloc, &written, ("word of", object as usize, *word))?;
    }
    Ok(())
}

#[test]
fn any_word_is_written(rt: HostRuntime) -> Result<(), Fail> {
    let alloc = rt.alloc();
    let image = made_image(&rt, alloc)?;
    let mut tally = Tally::new(alloc);
    for object in 0..END {
        for field in 0..2 {
            write_words(&rt, alloc, &mut tally, &image, (object, field))?;
        }
    }
    tally.expect_kinds(&rt, &OF_WRITES);
    Ok(())
}

/// The kinds that occur where any word is written.
const OF_WRITES: [(Kind, bool); 4] = [
    (Kind::Heap, true),
    (Kind::Batch, true),
    (Kind::Record, true),
    (Kind::Address, true),
];

/// Transactions 10 and 9 write the same field, with these before-images. The last one that is put back is that of the greater number: a reference to
/// no object, at address 7, is found where it is that.
const IN_TURN: [(Numbers<'static>, Verdict); 3] = [
    (
        &[
            (1, 1),
            (4, 10),
            (4, 0),
            (2, 2),
            (8, 0),
            (8, 1),
            (1, 1),
            (4, 9),
            (4, 0),
            (2, 2),
            (8, 0),
            (8, 1),
        ],
        Verdict::Heap,
    ),
    (
        &[
            (1, 1),
            (4, 10),
            (4, 0),
            (2, 2),
            (8, 0),
            (8, 1),
            (1, 1),
            (4, 9),
            (4, 0),
            (2, 2),
            (8, 30),
            (8, 1),
        ],
        Verdict::Heap,
    ),
    (
        &[
            (1, 1),
            (4, 10),
            (4, 0),
            (2, 2),
            (8, 30),
            (8, 1),
            (1, 1),
            (4, 9),
            (4, 0),
            (2, 2),
            (8, 0),
            (8, 1),
        ],
        Verdict::Address(0),
    ),
];

#[test]
fn losers_in_turn(rt: HostRuntime) -> Result<(), Fail> {
    let image = made_image(&rt, rt.alloc())?;
    expect_batches(&rt, rt.alloc(), &image, LOG_AT + ABORTED, &IN_TURN)
}
