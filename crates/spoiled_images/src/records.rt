//! Which record bytes begin with, and what stands in it.
use crate::bytes::{bytes_from, number, number_in};
use std::alloc::{AllocError, Global};

/// The kinds of records.
pub const UPDATE: u64 = 1;

pub const BASE: u64 = 2;

pub const FIX: u64 = 3;

pub const UNDO: u64 = 4;

pub const COMMIT: u64 = 5;

pub const END: u64 = 6;

pub const COPY: u64 = 7;

pub const SCAN: u64 = 8;

pub const FLIP: u64 = 9;

pub const COLLECTED: u64 = 10;

/// Where a number stands in a record, and how many bytes it has.
pub type Place = (usize, usize);

const KIND: Place = (0, 1);

/// The transaction of a record, the object and the field that it writes, and a word, which another one follows in an Update.
pub const TRANSACTION: Place = (1, 4);

pub const OBJECT: Place = (5, 4);

pub const FIELD: Place = (9, 2);

pub const WORD: Place = (11, 8);

pub const NEW_WORD: Place = (19, 8);

/// The page of a Scan, and how many writes follow.
pub const PAGE: Place = (1, 4);

const WRITES: Place = (5, 2);

const FIRST_WRITE: usize = 7;

/// How many objects of a Flip follow.
const COPIES: Place = (1, 4);

const FIRST_COPY: usize = 5;

/// The object of a Base or of a Copy.
const ONLY_OBJECT: usize = 1;

/// The bytes of a Commit and of an End: a kind and a transaction.
const COMMIT_BYTES: usize = 5;

/// The bytes of a Collected: its kind.
const COLLECTED_BYTES: usize = 1;

const WORD_BYTES: usize = 8;

/// The bytes of a write: an address and a word.
const WRITE_BYTES: usize = 12;

/// The bytes before the words of an object: two numbers.
const NUMBERS_BYTES: usize = 8;

/// The most fields of an object.
const MOST_FIELDS: u64 = 510;

/// The words before an object's fields.
pub const FRONT_WORDS: u64 = 2;

/// No reference is to a word address from this one on.
const ADDRESSES: u64 = 2_097_152;

/// No reference is to an index of an area from this one on.
const AREA_WORDS: u64 = 4_096;

/// The word address of an object's field.
pub fn field_address(object: u64, field: u64) -> u64 {
    object.saturating_add(FRONT_WORDS).saturating_add(field)
}

/// Whether it is a reference to an object at a word address.
pub fn is_reference(word: u64) -> bool {
    word % 4 == 2 && word / 4 < ADDRESSES
}

/// Whether it is a reference to an object of a transaction's own area.
pub fn is_area_reference(word: u64) -> bool {
    word % 4 == 3 && word / 4 < AREA_WORDS
}

/// Whether it is null or a number.
pub fn is_plain(word: u64) -> bool {
    word == 0 || word % 4 == 1
}

/// The word that stands where an object was copied from: it leads to where that is now.
pub fn forwarding(to: u64) -> u64 {
    to.saturating_mul(4).saturating_add(2)
}

/// How many fields the object with this header has.
pub fn fields_of(header: u64) -> Option<u64> {
    if header % 4 == 1 && header / 4 <= MOST_FIELDS {
        Some(header / 4)
    } else {
        None
    }
}

/// Where so many parts of that many bytes end, if each ends with a word that a field may have in a record.
fn parts_end(bytes: &[u8], begin: usize, size: usize, count: u64) -> Option<usize> {
    let mut end = begin;
    for _part in 0..count {
        end = end.saturating_add(size);
        let word = number_in(bytes, end.saturating_sub(WORD_BYTES), WORD_BYTES)?;
        if !is_plain(word) && !is_reference(word) && !is_area_reference(word) {
            return None;
        }
    }
    Some(end)
}

/// Where so many objects end, each with its two numbers.
fn objects_end(bytes: &[u8], begin: usize, count: u64) -> Option<usize> {
    let mut end = begin;
    for _object in 0..count {
        let words = end.saturating_add(NUMBERS_BYTES);
        let fields = fields_of(number_in(bytes, words, WORD_BYTES)?)?;
        end = parts_end(
            bytes,
            words.saturating_add(2 * WORD_BYTES),
            WORD_BYTES,
            fields,
        )?;
    }
    Some(end)
}

/// Where the record ends that the bytes begin with, should they have so many.
fn record_end(bytes: &[u8]) -> Option<usize> {
    match number(bytes, KIND.0, KIND.1) {
        UPDATE => parts_end(bytes, WORD.0, WORD_BYTES, 2),
        FIX | UNDO => parts_end(bytes, WORD.0, WORD_BYTES, 1),
        COMMIT | END => Some(COMMIT_BYTES),
        BASE | COPY => objects_end(bytes, ONLY_OBJECT, 1),
        SCAN => parts_end(
            bytes,
            FIRST_WRITE,
            WRITE_BYTES,
            number(bytes, WRITES.0, WRITES.1),
        ),
        FLIP => objects_end(bytes, FIRST_COPY, number(bytes, COPIES.0, COPIES.1)),
        COLLECTED => Some(COLLECTED_BYTES),
        _ => None,
    }
}

/// A whole record.
#[derive(Clone, Copy)]
pub struct Record<'a> {
    bytes: &'a [u8],
}

/// An object in a record: two numbers, of which the second one is its address, and its words.
#[derive(Clone, Copy)]
pub struct Object<'a> {
    pub number: u64,
    pub address: u64,
    words: &'a [u8],
}

/// The object whose two numbers the bytes begin with.
fn first_object(bytes: &[u8]) -> Object<'_> {
    let fields = fields_of(number(bytes, NUMBERS_BYTES, WORD_BYTES)).unwrap_or(0);
    let size = FRONT_WORDS.saturating_add(fields) as usize;
    let words = bytes_from(bytes, NUMBERS_BYTES);
    Object {
        number: number(bytes, 0, 4),
        address: number(bytes, 4, 4),
        words: words
            .get(..size.saturating_mul(WORD_BYTES))
            .unwrap_or(words),
    }
}

impl Object<'_> {
    /// How many words it has.
    pub fn size(&self) -> u64 {
        self.words.len() as u64 / 8
    }

    pub fn word(&self, index: u64) -> u64 {
        number(
            self.words,
            (index as usize).saturating_mul(WORD_BYTES),
            WORD_BYTES,
        )
    }
}

impl<'a> Record<'a> {
    /// The record that the bytes begin with.
    pub fn read(bytes: &'a [u8]) -> Option<Record<'a>> {
        let bytes = bytes.get(..record_end(bytes)?)?;
        Some(Record { bytes })
    }

    /// How many bytes it takes.
    pub fn size(&self) -> usize {
        self.bytes.len()
    }

    pub fn get(&self, place: Place) -> u64 {
        number(self.bytes, place.0, place.1)
    }

    pub fn kind(&self) -> u64 {
        self.get(KIND)
    }

    /// The objects of a Base, a Copy or a Flip.
    pub fn objects(&self, alloc: Global) -> Result<Vec<Object<'a>>, AllocError> {
        let (first, count) = match self.kind() {
            BASE | COPY => (ONLY_OBJECT, 1),
            FLIP => (FIRST_COPY, self.get(COPIES)),
            _ => (0, 0),
        };
        let mut objects = Vec::new(alloc);
        let mut rest = bytes_from(self.bytes, first);
        for _object in 0..count {
            let object = first_object(rest);
            objects.push(object)?;
            rest = bytes_from(rest, object.words.len().saturating_add(NUMBERS_BYTES));
        }
        Ok(objects)
    }

    /// The words that it puts into fields, each after its address.
    pub fn writes(&self, alloc: Global) -> Result<Vec<(u64, u64)>, AllocError> {
        let address = field_address(self.get(OBJECT), self.get(FIELD));
        match self.kind() {
            UPDATE => Ok(vec![in alloc; (address, self.get(NEW_WORD))]?),
            FIX | UNDO => Ok(vec![in alloc; (address, self.get(WORD))]?),
            SCAN => self.scan_writes(alloc),
            _ => Ok(Vec::new(alloc)),
        }
    }

    fn scan_writes(&self, alloc: Global) -> Result<Vec<(u64, u64)>, AllocError> {
        let mut writes = Vec::new(alloc);
        let mut at = FIRST_WRITE;
        for _write in 0..self.get(WRITES) {
            let word = self.get((at.saturating_add(4), WORD_BYTES));
            writes.push((self.get((at, 4)), word))?;
            at = at.saturating_add(WRITE_BYTES);
        }
        Ok(writes)
    }
}
