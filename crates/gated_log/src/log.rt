//! The open log: what was forced is on the disk, and what was appended since is pending, in memory alone.
ghost use Rattle.std.specs.Prelude.{◌≡◌, ◌≢◌, ◌⊎◌, ℕ, ◌+◌, ◌^◌, ◌<◌, ◌≤◌, ◌++◌, List, [], ◌∷◌, length, vec_len, vec_capacity, IsTrue, is_ok, IsOk, IsErr, OnOk, OnErr, IfOk, Ok, Err, if◌then◌else◌};
ghost use Rattle.std.specs.List.{AllByRecursion};
ghost use Rattle.disk_model.specs.Disk.{part, Only, SameOutside};
ghost use Rattle.disk_model.specs.Keeps.{KeepsDisk, OnlyReads};
ghost use Rattle.disk_model.specs.Moments.{LeavesOnly};
ghost use Rattle.gate_slot.specs.Passing.{Passes};
ghost use Rattle.log_records.specs.declared.Record.{Record};
ghost use Rattle.log_records.specs.Record.{spelling, spellings, AreSpelled, IsRecord};
ghost use Rattle.gated_log.specs.Log.{records_of, with_batch, HoldsBatches, BreaksAt};
ghost use Rattle.gated_log.specs.declared.reading.LogError.TheVariants.{BadBatch};
ghost use Rattle.gated_log.specs.LogCause.{log_device_result};
ghost use Rattle.gated_log.specs.LogRoom.{used_bytes};

use crate::batch::{NO_LENGTH, bytes_of, close_batch};
use crate::reading::{LogError, LogReader};
use disk_model::{Disk, DiskError};
use gate_slot::fill_and_open;
use log_records::{BATCH_BYTES, FIRST_LSN, Record};
use std::alloc::{AllocError, Global};

/// A log that lies in a part of a disk. What was forced is there after a crash; a pending record is in memory alone.
#[derive(Debug, Drop)]
pub struct Log {
    // Where the log begins on the disk.
    at: u64,
    // Its bytes.
    room: u32,
    // The offset in it of the closed gate after the forced batches.
    tail: u32,
    // How many records are in these batches, and how many are pending.
    forced: u64,
    waiting: u64,
    // Room for the length of a batch, and the pending records, encoded.
    buffer: Vec<u8>,
    pub ghost small: { room < 2 ^ 32 },
    ghost has_head: { 4 ≤ vec_len buffer },
    ghost fits: { used_bytes tail (vec_len buffer) ≤ room },
    ghost inside: { at + room < 2 ^ 64 },
    // A force finds memory for the gate that it adds.
    ghost ready: { vec_len buffer < vec_capacity buffer },
    // A record takes a byte at least.
    ghost few_forced: { forced ≤ tail },
    ghost few_waiting: { waiting + 4 ≤ vec_len buffer },
}

impl Log {
    ghost use Rattle.gated_log.specs.LogState.{log_place, log_room, log_tail, log_buffer, buffer_size, is_waiting, IsBufferEmpty, HasSpare, KeepsMemory, log_used, log_used_with, log_need, log_forced, log_count, Keeps, IsPlaced, IsSameLog};

    /// Reads the log of `room` bytes from byte `at` of the disk on, and the records of its batches in order. All of them are in
    /// memory then; a `LogReader` keeps none.
    pub fn open<D: Disk>(
        alloc: Global,
        disk: &mut D,
        at: u64,
        room: u32,
    ) -> Result<(Log, Vec<Record>), LogError>
        requires inside { at + room ≤ D.extent disk.old }
        requires small { at + room < 2 ^ 64 }
        requires some { 0 < room }

        ensures place { IfOk result (λ found. (log_place found.0 ≡ at) × (log_room found.0 ≡ room) × IsBufferEmpty found.0) }
        ensures good { IfOk result (λ found. AllByRecursion IsRecord found.1.items) }
        ensures few { IfOk result (λ found. vec_len found.1 ≤ room) }

        // It finds batches and their records: those that the log holds, on a modelled disk.
        ensures found { IfOk result (λ found. (batches : List (List Record)) × Keeps found.0 batches [] × (found.1.items ≡ records_of batches) × (IsTrue D.tells → HoldsBatches (part (D.bytes disk.old) at room) batches)) }
        ensures held { IsTrue D.tells → (batches : List (List Record)) → HoldsBatches (part (D.bytes disk.old) at room) batches → AllByRecursion IsRecord (records_of batches) → IfOk result (λ found. Keeps found.0 batches [] × (found.1.items ≡ records_of batches)) }
        ensures whole { IsTrue D.tells → (batches : List (List Record)) → HoldsBatches (part (D.bytes disk.old) at room) batches → AllByRecursion IsRecord (records_of batches) → (offset : ℕ) → result ≢ Err (BadBatch offset) }

        // A bad batch is reported exactly where the batch rule fails.
        ensures bad { IsTrue D.tells → (offset : ℕ) → result ≡ Err (BadBatch offset) → BreaksAt (part (D.bytes disk.old) at room) offset }
        ensures broken { IsTrue D.tells → (offset : ℕ) → BreaksAt (part (D.bytes disk.old) at room) offset → IsErr result }

        ensures disk { OnlyReads D.Disk disk.old disk.new (log_device_result result) }
    {
        let mut reader = LogReader::open(alloc, at, room)?;
        let mut records = Vec::new(alloc);
        while let Some(record) = reader.next(alloc, disk)? {
            records.push(record)?;
        }
        Ok((reader.into_log(), records))
    }

    /// A log with no pending record, with `forced` records up to the closed gate at that offset. The buffer has room for the length
    /// of a batch alone.
    pub(crate) fn of(at: u64, room: u32, tail: u32, forced: u64, buffer: Vec<u8>) -> Log
        requires inside { at + room < 2 ^ 64 }
        requires gate { tail < room }
        requires few { forced ≤ tail }
        requires head { vec_len buffer ≡ 4 }
        requires ready { 4 < vec_capacity buffer }
        ensures at { result.at ≡ at }
        ensures same_room { result.room ≡ room }
        ensures tail { result.tail ≡ tail }
        ensures forced { result.forced ≡ forced }
        ensures waiting { result.waiting ≡ 0 }
        ensures buffer { result.buffer ≡ buffer }
    {
        Log {
            at,
            room,
            tail,
            forced,
            waiting: 0,
            buffer,
        }
    }

    /// Whether records are pending.
    pub fn pending(&self) -> bool
        ensures { result ≡ is_waiting self.now }
    {
        self.buffer.len() > NO_LENGTH.len()
    }

    /// How many records it has, forced or pending: the LSN of the last one.
    pub fn records(&self) -> u64
        ensures { result ≡ log_count self.now }
    {
        self.forced + self.waiting
    }

    /// The LSN of the record that is appended next.
    pub fn next_lsn(&self) -> u64
        ensures { result ≡ log_count self.now + FIRST_LSN }
    {
        self.records() + FIRST_LSN
    }

    /// How many of its records were forced: the last LSN that is on the disk.
    pub fn forced(&self) -> u64
        ensures { result ≡ log_forced self.now }
    {
        self.forced
    }

    /// The bytes that are used: the forced batches, a gate, and a batch of the pending records.
    pub fn used(&self) -> u64
        ensures value { result ≡ log_used self.now }
        ensures fits { result ≤ log_room self.now }
    {
        let forced = u64::from(self.tail) + 1;
        if self.pending() {
            forced + 1 + self.buffer.len() as u64
        } else {
            forced
        }
    }

    /// The bytes of the log.
    pub fn room(&self) -> u64
        ensures { result ≡ log_room self.now }
    {
        u64::from(self.room)
    }

    /// The bytes that the record takes, with those of a batch if it is the first pending one.
    pub fn need(&self, rec: &Record) -> u64
        ensures { result ≡ log_need self.now (length (spelling rec.now)) }
    {
        let own = log_records::length(rec);
        if self.pending() {
            own
        } else {
            own + BATCH_BYTES as u64
        }
    }

    /// Allocates memory for that many more bytes of records. A log has room for fewer than 2^32 bytes.
    pub fn reserve(&mut self, bytes: usize) -> Result<(), AllocError>
        requires { bytes < 2 ^ 32 }
        ensures spare { OnOk result (HasSpare self.new bytes) }
        ensures in_room { HasSpare self.old bytes → IsOk result }
        ensures same { IsSameLog self.old self.new }
        ensures memory { KeepsMemory self.old self.new }
    {
        self.buffer.reserve(bytes + 1)
    }

    /// Adds a record after the pending ones, if the log has room for it. An `Err` changes nothing.
    pub fn append(&mut self, rec: &Record) -> Result<(), AllocError>
        requires { log_used self.old + log_need self.old (length (spelling rec.now)) ≤ log_room self.old }

        ensures added { (batches : List (List Record)) (pending : List Record) → Keeps self.old batches pending → OnOk result (Keeps self.new batches (pending ++ rec.now ∷ [])) }
        ensures ok { OnOk result (log_buffer self.new ≡ log_buffer self.old ++ spelling rec.now) }
        ensures used { OnOk result (log_used self.new ≡ log_used self.old + log_need self.old (length (spelling rec.now))) }
        ensures count { OnOk result (log_count self.new ≡ log_count self.old + 1) }
        ensures err { OnErr result (IsSameLog self.old self.new) }
        ensures place { IsPlaced self.old self.new }
        // With memory that `reserve` allocated it does not fail.
        ensures in_room { HasSpare self.old (length (spelling rec.now)) → IsOk result }
        ensures memory { KeepsMemory self.old self.new }
    {
        self.buffer.reserve(log_records::length(rec) as usize + 1)?;
        log_records::encode(rec, &mut self.buffer)?;
        self.waiting += 1;
        Ok(())
    }

    /// Adds records that are spelled already after the pending ones, `count` of them, if the log has room for them: all of them, or after an `Err`
    /// none.
    pub fn append_spelled(&mut self, spelled: &[u8], count: u64) -> Result<(), AllocError>
        requires spelled { AreSpelled spelled.now count }
        requires room { log_used_with self.old (length spelled.now) ≤ log_room self.old }

        ensures added { (batches : List (List Record)) (pending records : List Record) → spelled.now ≡ spellings records → length records ≡ count → Keeps self.old batches pending → OnOk result (Keeps self.new batches (pending ++ records)) }
        ensures ok { OnOk result (log_buffer self.new ≡ log_buffer self.old ++ spelled.now) }
        ensures size { OnOk result (buffer_size self.new ≡ buffer_size self.old + length spelled.now) }
        ensures used { OnOk result (log_used self.new ≡ log_used_with self.old (length spelled.now)) }
        ensures count { OnOk result (log_count self.new ≡ log_count self.old + count) }
        ensures err { OnErr result (IsSameLog self.old self.new) }
        ensures place { IsPlaced self.old self.new }
        // With memory that `reserve` allocated it does not fail.
        ensures in_room { HasSpare self.old (length spelled.now) → IsOk result }
        ensures memory { KeepsMemory self.old self.new }
    {
        self.buffer.reserve(spelled.len() + 1)?;
        self.buffer.extend_from_slice(spelled)?;
        self.waiting += count;
        Ok(())
    }

    /// Adds the records after the pending ones, if the log has room for them: all of them, or after an `Err` none.
    pub fn append_all(&mut self, records: &[Record]) -> Result<(), AllocError>
        requires { log_used_with self.old (length (spellings records.now)) ≤ log_room self.old }

        ensures added { (batches : List (List Record)) (pending : List Record) → Keeps self.old batches pending → OnOk result (Keeps self.new batches (pending ++ records.now)) }
        ensures ok { OnOk result (log_buffer self.new ≡ log_buffer self.old ++ spellings records.now) }
        ensures used { OnOk result (log_used self.new ≡ log_used_with self.old (length (spellings records.now))) }
        ensures count { OnOk result (log_count self.new ≡ log_count self.old + length records.now) }
        ensures err { OnErr result (IsSameLog self.old self.new) }
        ensures place { IsPlaced self.old self.new }
        // With memory that `reserve` allocated it does not fail.
        ensures in_room { HasSpare self.old (length (spellings records.now)) → IsOk result }
        ensures memory { KeepsMemory self.old self.new }
    {
        self.reserve(bytes_of(records) as usize)?;
        for rec in records {
            self.append(rec).unwrap();
        }
        Ok(())
    }

    /// Writes all pending records as one batch, in four device calls. Without any it makes none. After an error it isn't known
    /// whether they are on the disk: they stay pending, and the log can't be used until it is reopened.
    pub fn force<D: Disk>(&mut self, disk: &mut D) -> Result<(), DiskError>
        requires inside { log_place self.old + log_room self.old ≤ D.extent disk.old }

        ensures disk { KeepsDisk D.Disk disk.old disk.new result }

        // If nothing is pending there is nothing to do.
        ensures idle { IsBufferEmpty self.old → (result ≡ Ok tt) × (disk.new ≡ disk.old) × (self.new ≡ self.old) }

        ensures kept { (batches : List (List Record)) (pending : List Record) → Keeps self.old batches pending → OnOk result (Keeps self.new (with_batch batches pending) []) }
        ensures held { IsTrue D.tells → (batches : List (List Record)) (pending : List Record) → Keeps self.old batches pending → HoldsBatches (part (D.bytes disk.old) (log_place self.old) (log_room self.old)) batches → OnOk result (Keeps self.new (with_batch batches pending) [] × HoldsBatches (part (D.bytes disk.new) (log_place self.old) (log_room self.old)) (with_batch batches pending)) }
        ensures outside { IsTrue D.tells → OnOk result (SameOutside (log_place self.old) (log_place self.old + log_room self.old) (D.bytes disk.old) (D.bytes disk.new)) }
        ensures durable { IsTrue D.tells → Only (D.bytes disk.old) (D.may_leave disk.old) → OnOk result (Only (D.bytes disk.new) (D.may_leave disk.new)) }

        // A crash at any moment leaves the batches as they were, or with one more, and all that is outside of the log.
        ensures moments { IsTrue D.tells → Only (D.bytes disk.old) (D.may_leave disk.old) → (batches : List (List Record)) (pending : List Record) → Keeps self.old batches pending → HoldsBatches (part (D.bytes disk.old) (log_place self.old) (log_room self.old)) batches
            → LeavesOnly D.moment D.left_since disk.old disk.new (λ c. SameOutside (log_place self.old) (log_place self.old + log_room self.old) (D.bytes disk.old) c × (HoldsBatches (part c (log_place self.old) (log_room self.old)) batches ⊎ HoldsBatches (part c (log_place self.old) (log_room self.old)) (with_batch batches pending))) }
        ensures passes { IsTrue D.tells → Passes (if is_waiting self.old then 4 else 0) (D.passed disk.old) (D.passed disk.new) result }

        ensures nothing_waits { OnOk result (IsBufferEmpty self.new) }
        ensures waits { (batches : List (List Record)) (pending : List Record) → Keeps self.old batches pending → OnErr result (Keeps self.new batches pending) }
        ensures count { log_count self.new ≡ log_count self.old }
        ensures used { log_used self.new ≤ log_used self.old }
        ensures at { log_place self.new ≡ log_place self.old }
        ensures same_room { log_room self.new ≡ log_room self.old }
        ensures memory { KeepsMemory self.old self.new }
        ensures err { OnErr result (log_tail self.new ≡ log_tail self.old) }
        ensures forced { log_forced self.new ≡ (if is_ok result then log_count self.old else log_forced self.old) }
    {
        if !self.pending() {
            return Ok(());
        }
        let gate = self.at + u64::from(self.tail);
        let waiting = self.waiting;
        close_batch(&mut self.buffer);
        let size = self.buffer.len() as u32;
        let written = fill_and_open(disk, gate, gate + 1, &self.buffer);
        // Without the next gate the buffer holds the pending records, which stay pending if the disk failed.
        self.buffer.truncate(size as usize - 1);
        written?;
        self.buffer.truncate(NO_LENGTH.len());
        self.tail += size;
        self.forced += waiting;
        self.waiting = 0;
        Ok(())
    }
}
