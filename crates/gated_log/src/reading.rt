//! Reads a log record by record, through a window of fixed size.
ghost use Rattle.std.specs.Prelude.{◌≡◌, ◌≢◌, ℕ, ◌+◌, ◌-◌, ◌^◌, ◌<◌, ◌≤◌, ◌++◌, Bool, List, [], ◌∷◌, length, take, drop, slice_index, vec_len, vec_capacity, IsTrue, IsFalse, OnOk, IfOk, IfSome, Some, None, Ok, Err};
ghost use Rattle.std.specs.Int.{w32, to_le_bytes};
ghost use Rattle.disk_model.specs.Disk.{part};
ghost use Rattle.disk_model.specs.Keeps.{OnlyReads};
ghost use Rattle.log_records.specs.declared.Record.{Record};
ghost use Rattle.log_records.specs.Record.{spelling, IsRecord};
ghost use Rattle.gated_log.specs.Log.{BreaksAt, HasBatch, HoldsBatches};
ghost use Rattle.gated_log.specs.declared.reading.LogError.TheVariants.{NoMemory, BadBatch};
ghost use Rattle.gated_log.specs.LogCause.{log_device_result};

use crate::batch::{NO_LENGTH, told_length};
use crate::log::Log;
use disk_model::{Disk, DiskError};
use gate_slot::OPEN;
use log_records::{
    BASE_HEAD_BYTES, BATCH_BYTES, FIRST_LSN, FLIP, Record, SCAN, SCAN_HEAD_BYTES, WORD_BYTES,
    WRITE_BYTES,
};
use std::alloc::{AllocError, AllocFailed, Global};

/// How many bytes of a log are read at once, unless a record needs more: no more are read past what is needed.
const PIECE: usize = 65_536;

/// The bytes of the longest record that is no list, a `Base` or a `Copy` of an object with 510 fields.
const LONGEST_RECORD: usize = BASE_HEAD_BYTES + WORD_BYTES * 512;

/// The bytes of the longest `Scan`.
const LONGEST_SCAN: usize = SCAN_HEAD_BYTES + WRITE_BYTES * 65_535;

/// Why a log could not be read.
#[derive(Clone, Copy, Debug, PartialEq, Eq)]
pub enum LogError {
    /// Out of memory.
    NoMemory,
    /// The batch at that offset in the log doesn't lie within it, or doesn't hold whole records.
    BadBatch { at: u64 },
    /// The disk failed or stopped.
    Disk(DiskError),
}

impl From<AllocError> for LogError {
    ghost from_gives = { λ _ e. e ≡ NoMemory };

    fn from(_: AllocError) -> Self {
        LogError::NoMemory
    }
}

impl<T: Drop> From<AllocFailed<T>> for LogError {
    ghost from_gives = { λ _ e. e ≡ NoMemory };

    fn from(_: AllocFailed<T>) -> Self {
        LogError::NoMemory
    }
}

/// How far a log has been read: which of its records were given, and a window of the bytes after them.
#[derive(Debug, Drop)]
pub struct LogReader {
    // Where the log begins on the disk.
    at: u64,
    // Its bytes.
    room: u32,
    // The offset in it of the next byte.
    next: u32,
    // The offset of the gate of the batch that was begun, or of the next gate at a border.
    tail: u32,
    // How many bytes of the batch's records are left: none at a border.
    left: u32,
    // The LSN of the batch's first record.
    first: u64,
    // How many records were given.
    given: u64,
    // Bytes that were read, the first of which were taken.
    window: Vec<u8>,
    taken: usize,
    // Room for the length of a batch in the log that is opened at the end, and memory for a gate after it.
    buffer: Vec<u8>,
    ghost small: { room < 2 ^ 32 },
    ghost inside: { at + room < 2 ^ 64 },
    ghost held: { taken ≤ vec_len window },
    ghost read: { next + (vec_len window - taken) ≤ room },
    ghost gate: { next + left < room },
    ghost border: { left ≡ 0 → tail ≡ next },
    // A record takes a byte at least.
    ghost few: { given ≤ next },
    ghost head: { vec_len buffer ≡ 4 },
    ghost ready: { 4 < vec_capacity buffer },
}

impl LogReader {
    ghost use Rattle.gated_log.specs.LogState.{log_place, log_room, IsBufferEmpty, Keeps};
    ghost use Rattle.gated_log.specs.Reader.{reader_place, reader_room, reader_lsn, reader_batch, reader_left, reader_rest, held, held_size, untaken, HasRead, HasGiven, HasGivenAll, IsGiven, IsBegun, IsSameReader};

    /// A reader of the log of `room` bytes from byte `at` of a disk on. It has returned nothing yet.
    pub fn open(alloc: Global, at: u64, room: u32) -> Result<LogReader, AllocError>
        requires small { at + room < 2 ^ 64 }
        requires some { 0 < room }
        ensures place { IfOk result (λ reader. reader_place reader ≡ at) }
        ensures same_room { IfOk result (λ reader. reader_room reader ≡ room) }
        ensures none { (tells : Bool) (log : List ℕ) → IfOk result (λ reader. HasRead tells log reader [] []) }
        ensures given { (tells : Bool) (log : List ℕ) → IfOk result (λ reader. HasGiven tells log reader []) }
    {
        let mut buffer = Vec::with_capacity(alloc, NO_LENGTH.len() + 1)?;
        buffer.extend_from_slice(&NO_LENGTH)?;
        Ok(LogReader {
            at,
            room,
            next: 0,
            tail: 0,
            left: 0,
            first: FIRST_LSN,
            given: 0,
            window: Vec::new(alloc),
            taken: 0,
            buffer,
        })
    }

    /// How many records were given: the LSN of the last one.
    pub fn lsn(&self) -> u64
        ensures { result ≡ reader_lsn self.now }
    {
        self.given
    }

    /// The LSN of the first record of the batch that was begun last, 1 before any was.
    pub fn batch(&self) -> u64
        ensures { result ≡ reader_batch self.now }
    {
        self.first
    }

    /// The next record, or none after the last batch. After an error the reader can't be used.
    pub fn next<D: Disk>(&mut self, alloc: Global, disk: &mut D) -> Result<Option<Record>, LogError>
        requires inside { reader_place self.old + reader_room self.old ≤ D.extent disk.old }

        ensures place { reader_place self.new ≡ reader_place self.old }
        ensures same_room { reader_room self.new ≡ reader_room self.old }
        ensures good { IfOk result (λ found. IfSome found IsRecord) }
        ensures lsn { IfOk result (λ found. IfSome found (λ rec. reader_lsn self.new ≡ reader_lsn self.old + 1)) }
        ensures few { OnOk result (reader_lsn self.new < reader_room self.old) }
        ensures on { IfOk result (λ found. IfSome found (λ rec. reader_rest self.new < reader_rest self.old)) }

        // The records that are given are those of the log's batches, in order, and at the end all of them.
        ensures given { (log : List ℕ) (given : List Record) → (IsTrue D.tells → log ≡ part (D.bytes disk.old) (reader_place self.old) (reader_room self.old)) → HasGiven D.tells log self.old given → IfOk result (λ found. IfSome found (λ rec. HasGiven D.tells log self.new (given ++ rec ∷ []))) }
        ensures all { (log : List ℕ) (given : List Record) → (IsTrue D.tells → log ≡ part (D.bytes disk.old) (reader_place self.old) (reader_room self.old)) → HasGiven D.tells log self.old given → result ≡ Ok None → HasGivenAll D.tells log self.new given }
        // Each stands in its batch.
        ensures batch { (log : List ℕ) (batches : List (List Record)) (begun : List Record) → (IsTrue D.tells → log ≡ part (D.bytes disk.old) (reader_place self.old) (reader_room self.old)) → HasRead D.tells log self.old batches begun → IfOk result (λ found. IfSome found (IsGiven D.tells log self.new batches begun)) }

        // A bad batch is reported exactly where the batch rule fails.
        ensures bad { IsTrue D.tells → (log : List ℕ) (given : List Record) → log ≡ part (D.bytes disk.old) (reader_place self.old) (reader_room self.old) → HasGiven D.tells log self.old given → (offset : ℕ) → result ≡ Err (BadBatch offset) → BreaksAt log offset }
        ensures disk { OnlyReads D.Disk disk.old disk.new (log_device_result result) }
    {
        while self.left == 0 {
            if !self.begin_batch(disk)? {
                return Ok(None);
            }
        }
        Ok(Some(self.take_record(alloc, disk)?))
    }

    /// The log that was read, once `next` has given none: what a reader that stopped earlier gives would overwrite the batches that it has not read.
    pub fn into_log(self) -> Log
        requires { reader_left self ≡ 0 }
        ensures place { log_place result ≡ reader_place self }
        ensures same_room { log_room result ≡ reader_room self }
        ensures empty { IsBufferEmpty result }
        ensures keeps { (tells : Bool) (log : List ℕ) (batches : List (List Record)) → HasRead tells log self batches [] → Keeps result batches [] }
    {
        Log::of(self.at, self.room, self.next, self.given, self.buffer)
    }

    /// Begins the batch at the next gate, if that is open.
    fn begin_batch<D: Disk>(&mut self, disk: &mut D) -> Result<bool, LogError>
        requires inside { reader_place self.old + reader_room self.old ≤ D.extent disk.old }
        requires border { reader_left self.old ≡ 0 }

        ensures place { reader_place self.new ≡ reader_place self.old }
        ensures same_room { reader_room self.new ≡ reader_room self.old }
        ensures lsn { reader_lsn self.new ≡ reader_lsn self.old }
        ensures on { IfOk result (λ begun. IsTrue begun → reader_rest self.new < reader_rest self.old) }
        ensures border { IfOk result (λ begun. IsFalse begun → reader_left self.new ≡ 0) }
        ensures begun { (log : List ℕ) (batches : List (List Record)) → (IsTrue D.tells → log ≡ part (D.bytes disk.old) (reader_place self.old) (reader_room self.old)) → HasRead D.tells log self.old batches [] → IfOk result (λ begun. IsTrue begun → IsBegun D.tells log self.new batches) }
        ensures ended { (log : List ℕ) (batches : List (List Record)) → (IsTrue D.tells → log ≡ part (D.bytes disk.old) (reader_place self.old) (reader_room self.old)) → HasRead D.tells log self.old batches [] → IfOk result (λ begun. IsFalse begun → HasRead D.tells log self.new batches [] × (IsTrue D.tells → HoldsBatches log batches)) }
        ensures bad { IsTrue D.tells → (log : List ℕ) (batches : List (List Record)) → log ≡ part (D.bytes disk.old) (reader_place self.old) (reader_room self.old) → HasRead D.tells log self.old batches [] → (offset : ℕ) → result ≡ Err (BadBatch offset) → BreaksAt log offset }
        ensures disk { OnlyReads D.Disk disk.old disk.new (log_device_result result) }
    {
        self.fill(disk, 1)?;
        if self.window[self.taken] != OPEN {
            return Ok(false);
        }
        let Some(length) = self.next_length(disk)? else {
            return Err(LogError::BadBatch {
                at: u64::from(self.tail),
            });
        };
        self.first = self.given + FIRST_LSN;
        self.pass(BATCH_BYTES, 0, length);
        Ok(true)
    }

    /// How many bytes of records the batch at the next gate claims, if these lie in the log with a gate after them.
    fn next_length<D: Disk>(&mut self, disk: &mut D) -> Result<Option<u32>, LogError>
        requires inside { reader_place self.old + reader_room self.old ≤ D.extent disk.old }

        ensures same { IsSameReader self.old self.new }
        ensures untaken { (log : List ℕ) → (IsTrue D.tells → log ≡ part (D.bytes disk.old) (reader_place self.old) (reader_room self.old)) → IsTrue D.tells → OnOk result (untaken self.new log ≡ untaken self.old log) }
        ensures length { IfOk result (λ found. IfSome found (λ n. (5 ≤ held_size self.new) × (5 + n < reader_rest self.new) × (take 4 (drop 1 (held self.new)) ≡ to_le_bytes w32 n))) }
        ensures none { (log : List ℕ) → IsTrue D.tells → log ≡ part (D.bytes disk.old) (reader_place self.old) (reader_room self.old) → result ≡ Ok None → ¬ HasBatch (untaken self.new log) }
        ensures no_batch { (offset : ℕ) → result ≢ Err (BadBatch offset) }
        ensures disk { OnlyReads D.Disk disk.old disk.new (log_device_result result) }
    {
        let rest = (self.room - self.next) as usize;
        if rest <= BATCH_BYTES {
            return Ok(None);
        }
        self.fill(disk, BATCH_BYTES)?;
        match told_length(&self.window[self.taken..]) {
            Some(length) if BATCH_BYTES + (length as usize) < rest => Ok(Some(length)),
            _ => Ok(None),
        }
    }

    /// The next record of the batch, of which some bytes are left.
    fn take_record<D: Disk>(&mut self, alloc: Global, disk: &mut D) -> Result<Record, LogError>
        requires inside { reader_place self.old + reader_room self.old ≤ D.extent disk.old }
        requires some { 0 < reader_left self.old }

        ensures place { reader_place self.new ≡ reader_place self.old }
        ensures same_room { reader_room self.new ≡ reader_room self.old }
        ensures good { IfOk result IsRecord }
        ensures lsn { OnOk result (reader_lsn self.new ≡ reader_lsn self.old + 1) }
        ensures on { OnOk result (reader_rest self.new < reader_rest self.old) }
        ensures given { (log : List ℕ) (batches : List (List Record)) (begun : List Record) → (IsTrue D.tells → log ≡ part (D.bytes disk.old) (reader_place self.old) (reader_room self.old)) → HasRead D.tells log self.old batches begun → IfOk result (IsGiven D.tells log self.new batches begun) }
        ensures bad { IsTrue D.tells → (log : List ℕ) (batches : List (List Record)) (begun : List Record) → log ≡ part (D.bytes disk.old) (reader_place self.old) (reader_room self.old) → HasRead D.tells log self.old batches begun → (offset : ℕ) → result ≡ Err (BadBatch offset) → BreaksAt log offset }
        ensures disk { OnlyReads D.Disk disk.old disk.new (log_device_result result) }
    {
        self.fill(disk, 1)?;
        let most = most_bytes(self.window[self.taken], self.left as usize);
        self.fill(disk, most)?;
        let bytes = &self.window[self.taken..][..most];
        let Some((record, size)) = log_records::decode(alloc, bytes)? else {
            return Err(LogError::BadBatch {
                at: u64::from(self.tail),
            });
        };
        self.pass(size, 1, self.left - size as u32);
        Ok(record)
    }

    /// Takes `size` bytes that are in the window and spell `records` records, after which `left` bytes of the batch's are left.
    fn pass(&mut self, size: usize, records: u32, left: u32)
        requires here { size ≤ held_size self.old }
        requires some { records ≤ size }
        requires gate { self.old.next + size + left < self.old.room }
        ensures at { self.new.at ≡ self.old.at }
        ensures same_room { self.new.room ≡ self.old.room }
        ensures next { self.new.next ≡ self.old.next + size }
        ensures left { self.new.left ≡ left }
        ensures inside { 0 < left → self.new.tail ≡ self.old.tail }
        ensures border { left ≡ 0 → self.new.tail ≡ self.new.next }
        ensures first { self.new.first ≡ self.old.first }
        ensures given { self.new.given ≡ self.old.given + records }
        ensures window { self.new.window ≡ self.old.window }
        ensures taken { self.new.taken ≡ self.old.taken + size }
    {
        self.taken += size;
        self.next += size as u32;
        self.given += u64::from(records);
        self.left = left;
        if left == 0 {
            self.tail = self.next;
        }
    }

    /// Reads on until `wanted` bytes of the log that were not taken are in the window.
    fn fill<D: Disk>(&mut self, disk: &mut D, wanted: usize) -> Result<(), LogError>
        requires inside { reader_place self.old + reader_room self.old ≤ D.extent disk.old }
        requires rest { wanted ≤ reader_rest self.old }

        ensures enough { OnOk result (wanted ≤ held_size self.new) }
        ensures same { IsSameReader self.old self.new }
        ensures untaken { (log : List ℕ) → (IsTrue D.tells → log ≡ part (D.bytes disk.old) (reader_place self.old) (reader_room self.old)) → IsTrue D.tells → OnOk result (untaken self.new log ≡ untaken self.old log) }
        ensures no_batch { (offset : ℕ) → result ≢ Err (BadBatch offset) }
        ensures disk { OnlyReads D.Disk disk.old disk.new (log_device_result result) }
    {
        if self.window.len() - self.taken >= wanted {
            return Ok(());
        }
        self.window.drain(..self.taken);
        self.taken = 0;
        let read = self.next as usize + self.window.len();
        let size = PIECE.max(wanted).min(self.room as usize - read);
        read_behind(disk, self.at + read as u64, size, &mut self.window)
    }
}

/// How many bytes a record that begins with this one takes at most, if `left` are left of its batch. Of a `Flip` it may be all of
/// them; for any other they are bounded, whatever an image says.
fn most_bytes(first: u8, left: usize) -> usize
    ensures most { result ≤ left }
    ensures few { first ≢ 9 → result ≤ 786427 }
    ensures short { first ≢ 8 → first ≢ 9 → result ≤ 4105 }
    ensures room { (rec : Record) → IsRecord rec → slice_index (spelling rec) 0 ≡ first → length (spelling rec) ≤ left → length (spelling rec) ≤ result }
{
    if first == FLIP {
        left
    } else if first == SCAN {
        LONGEST_SCAN.min(left)
    } else {
        LONGEST_RECORD.min(left)
    }
}

/// Appends the `size` bytes of the disk from byte `at` on to those in the buffer.
fn read_behind<D: Disk>(
    disk: &mut D,
    at: u64,
    size: usize,
    buffer: &mut Vec<u8>,
) -> Result<(), LogError>
    requires inside { at + size ≤ D.extent disk.old }
    requires fits { vec_len buffer.old + size < 2 ^ 64 }
    ensures bytes { IsTrue D.tells → OnOk result (buffer.new.items ≡ buffer.old.items ++ part (D.bytes disk.old) at size) }
    ensures len { OnOk result (vec_len buffer.new ≡ vec_len buffer.old + size) }
    ensures most { vec_len buffer.new ≤ vec_len buffer.old + size }
    ensures no_batch { (offset : ℕ) → result ≢ Err (BadBatch offset) }
    ensures disk { OnlyReads D.Disk disk.old disk.new (log_device_result result) }
{
    let from = buffer.len();
    buffer.resize(from + size, 0)?;
    disk.read(at, &mut buffer[from..]).map_err(LogError::Disk)?;
    Ok(())
}
