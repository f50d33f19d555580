//! The records of the log, and how they are spelled: a byte of its kind, then its fields, lowest bytes first.
#![tactic(auto)]

mod copies;
mod copy_ref;
mod decoding;
mod encoding;
mod object_words;
mod writes;

ghost use Rattle.std.specs.Prelude.{◌≡◌, ◌+◌, ◌^◌, ◌<◌, length};
ghost use Rattle.log_records.specs.Record.{spelling};

pub use copies::{Copies, ObjectCopy};
pub use copy_ref::{CopyRef, copy_length};
pub use decoding::decode;
pub use encoding::{encode, write_copy};
pub use object_words::ObjectWords;
pub use writes::Writes;

const UPDATE: u8 = 1;

const BASE: u8 = 2;

const FIX: u8 = 3;

const UNDO: u8 = 4;

const COMMIT: u8 = 5;

const END: u8 = 6;

const COPY: u8 = 7;

/// The first byte of a `Scan` record.
pub const SCAN: u8 = 8;

/// The first byte of a `Flip` record.
pub const FLIP: u8 = 9;

const COLLECTED: u8 = 10;

/// The LSN of the first record of a heap's log: the records of a log are numbered from it on.
pub const FIRST_LSN: u64 = 1;

/// The bytes of an `Update` record.
pub const UPDATE_BYTES: usize = 27;

/// The bytes of a `Base` record before its words.
pub const BASE_HEAD_BYTES: usize = 9;

/// The bytes of a word.
pub const WORD_BYTES: usize = 8;

/// The bytes of a `Fix` record, and of an `Undo`.
pub const PUT_BYTES: usize = 19;

/// The bytes of a `Commit` record.
pub const COMMIT_BYTES: usize = 5;

/// The bytes of an `End` record.
pub const END_BYTES: usize = 5;

/// The bytes of a copy before its words, so those of a `Copy` but its kind.
pub const COPY_HEAD_BYTES: usize = 8;

/// The bytes of a `Scan` record before its writes.
pub const SCAN_HEAD_BYTES: usize = 7;

/// The bytes of a write in a `Scan` record.
pub const WRITE_BYTES: usize = 12;

/// The bytes of a `Flip` record before its copies.
pub const FLIP_HEAD_BYTES: usize = 5;

/// The bytes of a `Collected` record.
pub const COLLECTED_BYTES: usize = 1;

/// The bytes that a batch of records takes in a log besides them: its gate and its length.
pub const BATCH_BYTES: usize = 5;

/// A record of the log. Its bytes can be read back only if each of its words is one of a field, and those of a `Base`,
/// a `Copy` or a `Flip` are the words of objects.
#[derive(Debug, Drop, PartialEq, Eq)]
pub enum Record {
    /// Transaction `t` wrote `word` into a field of the object at word address `object`, where `was` stood.
    Update {
        t: u32,
        object: u32,
        field: u16,
        was: u64,
        word: u64,
    },
    /// An object that transaction `t` made is stable from now on: its words stand from word address `address` on.
    Base {
        t: u32,
        address: u32,
        words: ObjectWords,
    },
    /// A field of the object at word address `object`, which transaction `t` had given a reference to an object that it made,
    /// refers to that object where it stands now that it is stable: `word` stands in it.
    Fix {
        t: u32,
        object: u32,
        field: u16,
        word: u64,
    },
    /// What transaction `t` wrote into a field of the object at word address `object` is taken back: `word`, which stood there
    /// before, stands there again. This record is never taken back itself.
    Undo {
        t: u32,
        object: u32,
        field: u16,
        word: u64,
    },
    /// Transaction `t` is committed.
    Commit {
        t: u32,
    },
    /// Transaction `t` has ended and left nothing.
    End {
        t: u32,
    },
    /// The object at word address `from` is copied: its words stand from word address `to` on, and where it stood the copy's
    /// address stands.
    Copy {
        from: u32,
        to: u32,
        words: ObjectWords,
    },
    /// No object of page `page` leads to the from-space any more: of their fields those that did are given their new words.
    Scan {
        page: u32,
        writes: Writes,
    },
    /// The two spaces change their roles, and these objects, the first ones, are copied into the one that is current now.
    Flip {
        copies: Copies,
    },
    /// Nothing leads to the from-space any more.
    Collected,
}

/// The bytes of the record's spelling.
#[tactic(auto, using(crate::proofs::Words::length_word_bytes, crate::proofs::Words::length_writes))]
pub fn length(rec: &Record) -> u64
    ensures value { result ≡ length (spelling rec.now) }
    ensures small { result < 2 ^ 63 + 9 }
{
    match rec {
        Record::Update { .. } => UPDATE_BYTES as u64,
        Record::Base { words, .. } => (BASE_HEAD_BYTES
            + WORD_BYTES * words.as_slice().len()) as u64,
        Record::Fix { .. } | Record::Undo { .. } => PUT_BYTES as u64,
        Record::Commit { .. } => COMMIT_BYTES as u64,
        Record::End { .. } => END_BYTES as u64,
        Record::Copy { words, .. } => (1
            + COPY_HEAD_BYTES
            + WORD_BYTES * words.as_slice().len()) as u64,
        Record::Scan { writes, .. } => (SCAN_HEAD_BYTES
            + WRITE_BYTES * writes.as_slice().len()) as u64,
        Record::Flip { copies } => (FLIP_HEAD_BYTES + copies.bytes()) as u64,
        Record::Collected => COLLECTED_BYTES as u64,
    }
}
