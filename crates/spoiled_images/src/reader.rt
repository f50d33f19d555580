//! What a whole image holds.
use crate::bytes::{bytes_from, number, number_in};
use crate::frames::Pages;
use crate::records::Record;
use crate::state::State;
use crate::walk::walk_fault;
use std::alloc::{AllocError, Global};

/// What an image holds: a heap, or the first fault in the order in which an opening looks for them.
#[derive(Clone, Copy, Debug, PartialEq, Eq)]
pub enum Verdict {
    /// A heap.
    Heap,
    /// Its superblock is not good, or it is too short.
    NotHeap,
    /// At that offset of the log the gate is open, and no whole batch stands there.
    Batch(u64),
    /// The record of that number, from 1, does not follow from those before it.
    Record(u64),
    /// The log has no room for what takes the writes of unfinished transactions back.
    Reserve,
    /// The page of that number is ahead of the log: the LSN in its frame is greater than the number of all records.
    Page(u32),
    /// At that word address the walk of the words fails.
    Address(u32),
}

/// The bytes of the superblock.
const SUPER_BYTES: usize = 64;

/// Where the zeros at the superblock's end begin.
const ZEROS_AT: usize = 24;

/// The bytes of the frames of a page of both spaces.
const PAGE_BYTES: u64 = 2_112;

/// The spaces, which have the same number of pages.
const SPACES: u64 = 2;

/// The bytes of a batch before its records: its gate and its length.
const BATCH_HEAD: usize = 5;

/// What the rollback of a loser takes of the log besides its records: its `End`, and a batch's gate and length.
const LOSER_BYTES: u64 = 10;

/// What an `Undo` takes.
const UNDO_BYTES: u64 = 19;

/// What an open gate is.
const OPEN: u64 = 1;

/// The letters and the number of the format that a superblock begins with, behind its open gate.
const FRONT: &[u8] = b"\x01stbheap\x01\x00\x00\x00";

/// The numbers of a superblock.
#[derive(Clone, Copy)]
struct Shape {
    pages: u64,
    log_bytes: u64,
    first: u64,
}

/// Where the batches of a log end.
#[derive(Clone, Copy)]
enum Batches {
    /// They take that many bytes, with the closed gate that ends them.
    Whole(usize),
    /// No whole batch stands at this offset.
    Broken(usize),
}

impl Shape {
    /// The bytes of the whole image, if the numbers are within their limits.
    fn size(&self) -> Option<u64> {
        let pages = 1 <= self.pages && self.pages <= 16_384;
        let log = 64 <= self.log_bytes && self.log_bytes <= 1_073_741_824;
        if pages && log && self.first >= 1 {
            Some(SUPER_BYTES as u64 + self.log_bytes + PAGE_BYTES * self.pages)
        } else {
            None
        }
    }
}

/// Reads an image, of a disk with these bytes.
pub fn read(alloc: Global, image: &[u8]) -> Result<Verdict, AllocError> {
    let Some(shape) = read_shape(image) else {
        return Ok(Verdict::NotHeap);
    };
    let rest = bytes_from(image, SUPER_BYTES);
    let Some(log) = rest.get(..shape.log_bytes as usize) else {
        return Ok(Verdict::NotHeap);
    };
    let mut records = Vec::new(alloc);
    match read_batches(log, &mut records)? {
        Batches::Broken(offset) => Ok(Verdict::Batch(offset as u64)),
        Batches::Whole(used) => {
            let frames = bytes_from(rest, log.len());
            read_records(alloc, shape, used as u64, &records, frames)
        }
    }
}

/// What an image holds whose log has these records.
fn read_records(
    alloc: Global,
    shape: Shape,
    used: u64,
    records: &[Record<'_>],
    frames: &[u8],
) -> Result<Verdict, AllocError> {
    let mut state = State::new(alloc, shape.pages);
    if let Some(number) = first_unfit(alloc, &mut state, records)? {
        return Ok(Verdict::Record(number));
    }
    let losers = state.losers(alloc)?;
    if used.saturating_add(rollback_bytes(&state, &losers)) > shape.log_bytes {
        return Ok(Verdict::Reserve);
    }
    let mut pages = Pages::read(alloc, frames, SPACES.saturating_mul(shape.pages))?;
    if let Some(page) = pages.first_ahead(records.len() as u64) {
        return Ok(Verdict::Page(page));
    }
    pages.redo_all(alloc, records)?;
    state.roll_back(&losers, &mut pages);
    match walk_fault(alloc, pages.words(), &state)? {
        Some(address) => Ok(Verdict::Address(narrow(address))),
        None => Ok(Verdict::Heap),
    }
}

/// An address of a verdict, which no image makes greater than that.
fn narrow(address: u64) -> u32 {
    u32::try_from(address).unwrap_or(u32::MAX)
}

/// The number of the first record that may not follow.
fn first_unfit(
    alloc: Global,
    state: &mut State,
    records: &[Record<'_>],
) -> Result<Option<u64>, AllocError> {
    let mut number: u64 = 0;
    for record in records {
        number = number.saturating_add(1);
        if !state.follow(alloc, record)? {
            return Ok(Some(number));
        }
    }
    Ok(None)
}

/// What the rollback of the losers takes of the log.
fn rollback_bytes(state: &State, losers: &[u64]) -> u64 {
    let ends = LOSER_BYTES.saturating_mul(losers.len() as u64);
    ends.saturating_add(UNDO_BYTES.saturating_mul(state.undo_len()))
}

/// The numbers of a good superblock, of which the image has all bytes.
fn read_shape(image: &[u8]) -> Option<Shape> {
    let shape = Shape {
        pages: number_in(image, 12, 4)?,
        log_bytes: number_in(image, 16, 4)?,
        first: number_in(image, 20, 4)?,
    };
    let whole = shape.size()? <= image.len() as u64;
    if whole && image.starts_with(FRONT) && has_zeros(image) {
        Some(shape)
    } else {
        None
    }
}

/// Whether the superblock ends with zeros.
fn has_zeros(image: &[u8]) -> bool {
    for at in ZEROS_AT..SUPER_BYTES {
        if number(image, at, 1) != 0 {
            return false;
        }
    }
    true
}

/// Adds the records of all batches.
fn read_batches<'a>(log: &'a [u8], records: &mut Vec<Record<'a>>) -> Result<Batches, AllocError> {
    let mut last = 0;
    let mut next = 0;
    for _ in 0..log.len() {
        if next >= log.len() {
            break;
        }
        if number(log, next, 1) != OPEN {
            return Ok(Batches::Whole(next.saturating_add(1)));
        }
        last = next;
        let Some(size) = read_batch(bytes_from(log, next), records)? else {
            break;
        };
        next = next.saturating_add(size);
    }
    // The last batch is not whole, or has no next gate within the log.
    Ok(Batches::Broken(last))
}

/// Adds the records of the batch whose open gate comes first, and returns its size, if it is whole but for the next gate. A length that is cut short
/// counts as 0: then the next gate lies behind the log.
fn read_batch<'a>(
    bytes: &'a [u8],
    records: &mut Vec<Record<'a>>,
) -> Result<Option<usize>, AllocError> {
    let length = number(bytes, 1, 4) as usize;
    let Some(body) = bytes_from(bytes, BATCH_HEAD).get(..length) else {
        return Ok(None);
    };
    let mut next = 0;
    for _ in 0..length {
        if next >= length {
            break;
        }
        let Some(record) = Record::read(bytes_from(body, next)) else {
            return Ok(None);
        };
        next = next.saturating_add(record.size());
        records.push(record)?;
    }
    Ok(Some(BATCH_HEAD.saturating_add(length)))
}
