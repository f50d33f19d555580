//! Images within a collection that no heap has left: words that lead elsewhere, and records that can't follow.
use crate::collecting_tests::{FRAMES_AT, LOG_AT, collecting_image};
use crate::judging::{expect, poke};
use crate::reader::Verdict;
use crate::spelling::{Numbers, expect_batches};
use std::test::Fail;

/// Where the word of an address stands in the image: in the first frame of page 0, or in the second one of page 2, which hold these pages.
fn word_at(address: usize) -> usize {
    let words = if address < 128 {
        FRAMES_AT + 16
    } else {
        FRAMES_AT + 5 * 528 + 16
    };
    words.saturating_add((address % 64).saturating_mul(8))
}

/// A word address, what is put there, and what is said of that. The objects stood at 0, 6, 9, 61 and 65, and stand at 128, 137, 140, 192 and 134, of
/// which the one at 192 is gray.
const WORDS: [(usize, u64, Verdict); 20] = [
    // Forwarding words that lead to nowhere, into the middle of an object, to an object of the from-space, to one another.
    (6, 4 * 200 + 2, Verdict::Address(6)),
    (61, 4 * 193 + 2, Verdict::Address(61)),
    (6, 4 * 9 + 2, Verdict::Address(6)),
    (9, 4 * 6 + 2, Verdict::Address(9)),
    (9, 4 * 9 + 2, Verdict::Address(9)),
    // To the copy of another object, of another length, and of its own, which no walk can notice.
    (6, 4 * 140 + 2, Verdict::Address(58)),
    (0, 4 * 134 + 2, Verdict::Address(3)),
    (6, 4 * 134 + 2, Verdict::Heap),
    // No forwarding words where objects were copied.
    (0, 17, Verdict::Address(0)),
    (6, 5, Verdict::Address(6)),
    (61, 9, Verdict::Address(61)),
    (61, 4 * 192 + 3, Verdict::Address(61)),
    // An object takes in the next one, so that what is gray is no object.
    (140, 4 * 54 + 1, Verdict::Address(192)),
    // Objects of other lengths, and one that is no root.
    (140, 4 * 49 + 1, Verdict::Address(191)),
    (137, 4 * 2 + 1, Verdict::Address(141)),
    (129, 1, Verdict::Address(128)),
    // Fields that are not gray lead to the from-space, or into the middle of an object.
    (139, 4 * 9 + 2, Verdict::Address(137)),
    (130, 4 * 6 + 2, Verdict::Address(128)),
    (139, 4 * 141 + 2, Verdict::Address(137)),
    // The field of a write that is taken back.
    (136, 4 * 65 + 2, Verdict::Heap),
];

#[test]
fn words_of_a_collection(rt: HostRuntime) -> Result<(), Fail> {
    let alloc = rt.alloc();
    let image = collecting_image(&rt, alloc)?;
    for (address, word, verdict) in &WORDS {
        let mut spoiled = image.to_vec(alloc)?;
        poke(&rt, &mut spoiled, word_at(*address), &word.to_le_bytes());
        expect(&rt, alloc, &spoiled, ("word", *address, *word), *verdict)?;
    }
    Ok(())
}

const COLLECTED: (usize, u64) = (1, 10);

/// What is appended to the log of 16 records, and what is said of that.
const RECORDS: [(Numbers<'static>, Verdict); 14] = [
    // The end, while an object is gray; and after the scan of its page, with its field updated to the copy and as it was.
    (&[COLLECTED], Verdict::Record(17)),
    (
        &[
            (1, 8),
            (4, 3),
            (2, 1),
            (4, 194),
            (8, 4 * 134 + 2),
            COLLECTED,
        ],
        Verdict::Heap,
    ),
    (&[(1, 8), (4, 3), (2, 0), COLLECTED], Verdict::Address(192)),
    // Two ends.
    (
        &[(1, 8), (4, 3), (2, 0), COLLECTED, COLLECTED],
        Verdict::Record(19),
    ),
    // Scans of pages of the other space, of none, and of the greatest number.
    (&[(1, 8), (4, 1), (2, 0)], Verdict::Record(17)),
    (&[(1, 8), (4, 4), (2, 0)], Verdict::Record(17)),
    (&[(1, 8), (4, 4_294_967_295), (2, 0)], Verdict::Record(17)),
    // Scans that write past the used words, into the from-space, a reference to it, and a number.
    (
        &[(1, 8), (4, 3), (2, 1), (4, 196), (8, 4 * 134 + 2)],
        Verdict::Record(17),
    ),
    (
        &[(1, 8), (4, 3), (2, 1), (4, 8), (8, 4 * 134 + 2)],
        Verdict::Record(17),
    ),
    (
        &[(1, 8), (4, 3), (2, 1), (4, 194), (8, 4 * 65 + 2)],
        Verdict::Record(17),
    ),
    (
        &[(1, 8), (4, 3), (2, 1), (4, 194), (8, 29)],
        Verdict::Record(17),
    ),
    // A copy of what was copied, and a flip while a collection runs.
    (
        &[(1, 7), (4, 65), (4, 196), (8, 5), (8, 0), (8, 0)],
        Verdict::Record(17),
    ),
    (
        &[
            (1, 9),
            (4, 1),
            (4, 128),
            (4, 0),
            (8, 17),
            (8, 0),
            (8, 0),
            (8, 0),
            (8, 0),
            (8, 0),
        ],
        Verdict::Record(17),
    ),
    // A flip after the end, of the root alone: what was written in another object does not move along.
    (
        &[
            (1, 8),
            (4, 3),
            (2, 0),
            COLLECTED,
            (1, 9),
            (4, 1),
            (4, 128),
            (4, 0),
            (8, 17),
            (8, 0),
            (8, 0),
            (8, 0),
            (8, 0),
            (8, 0),
        ],
        Verdict::Record(19),
    ),
];

/// Where the first closed gate stands.
fn log_end(image: &[u8]) -> usize {
    let mut at = LOG_AT;
    for _ in 0..image.len() {
        let [1, a, b, c, d, ..] = image.get(at..).unwrap_or(&[]) else {
            return at;
        };
        let length = u32::from_le_bytes([*a, *b, *c, *d]) as usize;
        at = at.saturating_add(5).saturating_add(length);
    }
    at
}

#[test]
fn records_of_a_collection_that_cannot_follow(rt: HostRuntime) -> Result<(), Fail> {
    let image = collecting_image(&rt, rt.alloc())?;
    expect_batches(&rt, rt.alloc(), &image, log_end(&image), &RECORDS)
}
