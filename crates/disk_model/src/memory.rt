//! A disk in memory, of which each image that a crash may leave is known.
ghost use Rattle.std.specs.Prelude.{◌≡◌, ℕ, ◌+◌, ◌≤◌, ◌++◌, Bool, ◌↔◌, [], List, length, map, replicate, slice_index_or, ◌<◌, ◌⊎◌, take, Ok, IfOk, MatchOption, IsTrue, IsFalse, OnOk, true};
ghost use Rattle.std.specs.List.{All};
ghost use Rattle.std.specs.Vec.{vec_len, vec_capacity};
ghost use Rattle.counts.specs.Count.{raised};
ghost use Rattle.disk_model.specs.Disk.{overwrite, part, Torn, WidensBy, Narrows, Only, Elapses, HasCause, passed_after};
ghost use Rattle.disk_model.specs.Memory.{Write, Sync, Restart, MayLeave, MightHaveLeft, blended, left_by, made, changes_of, now_of, cost, write_fails, sync_fails, read_fails, answer, with_write, settled, after_write, after_sync, after_read, after_restart, begun_anew};
ghost use Rattle.disk_model.specs.Range.{range_of, Fits, IsTied};

use crate::{Disk, DiskError};
use counts::Count;
use std::alloc::{AllocError, Global};
use std::marker::Model;
use std::snapshot::Snapshot;

/// What a restart leaves in the ranges that were written since the last sync.
#[derive(Clone, Copy, Debug, PartialEq, Eq)]
pub enum Pick {
    /// The bytes of the last sync.
    Synced,
    /// The newest bytes.
    Newest,
    /// The byte 255.
    AllOnes,
    /// The byte 1.
    AllOpen,
}

/// A number that belongs to no pick.
#[derive(Clone, Copy, Debug, PartialEq, Eq)]
pub struct UnknownPick(pub u8);

/// The picks are numbered from 0 to 3, in their order.
impl TryFrom<u8> for Pick {
    ghost use Rattle.std.specs.Prelude.{◌≡◌, ◌≤◌, MatchResult};
    ghost use Rattle.disk_model.specs.Memory.{pick_number};

    type Error = UnknownPick;

    ghost try_from_gives = { λ number outcome. MatchResult outcome (λ pick. pick_number pick ≡ number) (λ error. (4 ≤ number) × (error.0 ≡ number)) };

    fn try_from(number: u8) -> Result<Pick, UnknownPick> {
        match number {
            0 => Ok(Pick::Synced),
            1 => Ok(Pick::Newest),
            2 => Ok(Pick::AllOnes),
            3 => Ok(Pick::AllOpen),
            _ => Err(UnknownPick(number)),
        }
    }
}

/// A change, as the record keeps it.
#[derive(Clone, Copy)]
enum Call {
    /// A write of `len` bytes at `at`, which stand in the pool at `from`.
    Wrote { at: usize, from: usize, len: usize },
    Synced,
    Restarted,
}

/// A disk in memory that keeps a record of its changes, so that it is known what a crash at each moment might have left.
///
/// A write takes time linear in its bytes, and a sync or a restart in what was written since the last one. It never
/// answers `Stopped`, and no call allocates once it is made.
#[derive(Drop)]
pub struct MemoryDisk {
    // The bytes that it was made of are for clauses alone, and use no memory.
    first: Snapshot<Vec<u8>>,
    synced: Vec<u8>,
    newest: Vec<u8>,
    calls: Vec<Call>,
    /// The bytes of all writes, one after another.
    pool: Vec<u8>,
    /// Where the record's entries since the last sync or restart begin.
    pending_from: usize,
    pick: Pick,
    /// What is free of the room, and the room that was taken.
    room: usize,
    whole: usize,
    fail_writes: Vec<u64>,
    fail_reads: Vec<u64>,
    passed: Count,
    reads: Count,
    faults: Count,
    restarts: Count,
}

impl Model for MemoryDisk {
    ghost use Rattle.disk_model.specs.Memory.{Memory};

    ghost Value = { Memory };

    ghost use Rattle.disk_model.specs.Record.{view_of, IsFaithful};

    ghost view = { view_of };

    ghost invariant = { IsFaithful };
}

/// What a write takes of the record's room besides its bytes: its own entry, and that of the sync or restart after it.
const ENTRIES: usize = 64;

impl Call {
    fn range(self) -> (usize, usize)
        ensures { result ≡ range_of self }
    {
        match self {
            Call::Wrote { at, len, .. } => (at, len),
            Call::Synced | Call::Restarted => (0, 0),
        }
    }
}

fn write_range(image: &mut [u8], at: usize, bytes: &[u8])
    requires { at + length bytes.now ≤ length image.old }
    ensures { image.new ≡ overwrite image.old at bytes.now }
{
    image[at..at + bytes.len()].copy_from_slice(bytes);
}

fn copy_range(to: &mut [u8], from: &[u8], at: usize, len: usize)
    requires in_to { at + len ≤ length to.old }
    requires in_from { at + len ≤ length from.now }
    ensures { to.new ≡ overwrite to.old at (part from.now at len) }
{
    write_range(to, at, &from[at..at + len]);
}

fn fill_range(image: &mut [u8], byte: u8, at: usize, len: usize)
    requires { at + len ≤ length image.old }
    ensures { image.new ≡ overwrite image.old at (replicate len byte) }
{
    image[at..at + len].fill(byte);
}

/// Copies what the calls wrote from one image to the other.
fn copy_ranges(to: &mut [u8], from: &[u8], calls: &[Call])
    requires size { length from.now ≡ length to.old }
    requires fit { All (Fits (length to.old)) (map range_of calls.now) }
    ensures { to.new ≡ blended (map range_of calls.now) from.now to.old }
{
    for call in calls {
        let (at, len) = call.range();
        copy_range(to, from, at, len);
    }
}

/// Fills what the calls wrote.
fn fill_ranges(image: &mut [u8], byte: u8, calls: &[Call])
    requires { All (Fits (length image.old)) (map range_of calls.now) }
    ensures { image.new ≡ blended (map range_of calls.now) (replicate (length image.old) byte) image.old }
{
    for call in calls {
        let (at, len) = call.range();
        fill_range(image, byte, at, len);
    }
}

/// Makes the newest bytes what a crash leaves.
fn leave_picked(pick: Pick, newest: &mut [u8], synced: &[u8], calls: &[Call])
    requires size { length synced.now ≡ length newest.old }
    requires fit { All (Fits (length newest.old)) (map range_of calls.now) }
    ensures { newest.new ≡ left_by pick (record { newest = newest.old; synced = synced.now; pending = map range_of calls.now }) }
{
    match pick {
        Pick::Synced => copy_ranges(newest, synced, calls),
        Pick::Newest => {}
        Pick::AllOnes => fill_ranges(newest, 255, calls),
        Pick::AllOpen => fill_ranges(newest, 1, calls),
    }
}

/// Makes both images what a crash leaves, in time linear in what the calls wrote.
fn settle_picked(pick: Pick, newest: &mut [u8], synced: &mut [u8], calls: &[Call])
    requires size { length synced.old ≡ length newest.old }
    requires fit { All (Fits (length newest.old)) (map range_of calls.now) }
    requires tied { IsTied (map range_of calls.now) synced.old newest.old }
    ensures newest { newest.new ≡ left_by pick (record { newest = newest.old; synced = synced.old; pending = map range_of calls.now }) }
    ensures synced { synced.new ≡ newest.new }
{
    leave_picked(pick, newest, synced, calls);
    copy_ranges(synced, newest, calls);
}

/// Appends where there is room, so that nothing is allocated.
fn append(pool: &mut Vec<u8>, piece: &[u8])
    requires { vec_len pool.old + length piece.now ≤ vec_capacity pool.old }
    ensures items { pool.new.items ≡ pool.old.items ++ piece.now }
    ensures capacity { vec_capacity pool.old ≤ vec_capacity pool.new }
{
    let _in_place = pool.extend_from_slice(piece);
}

impl MemoryDisk {
    /// A disk of these bytes, with nothing pending. It allocates all its memory here, and fails only if there is too little:
    /// a second image, and for the record of its changes at most twice `room` bytes.
    ///
    /// Each write takes 64 bytes of that room and as many as it writes; a sync or a restart takes none.
    /// A write for which there is too little room left fails. So do the writes and syncs, counted together from 1,
    /// whose number is in `fail_writes`, and the reads, counted from 1, whose number is in `fail_reads`. Nothing else
    /// fails, and a call that fails changes nothing and marks nothing.
    pub fn of(
        alloc: Global,
        bytes: Vec<u8>,
        pick: Pick,
        room: usize,
        fail_writes: Vec<u64>,
        fail_reads: Vec<u64>,
    ) -> Result<MemoryDisk, AllocError>
        ensures exact { IfOk result (λ disk. disk ≡ made bytes.items pick room fail_writes.items fail_reads.items) }
        ensures bytes { IfOk result (λ disk. (now_of disk).newest ≡ bytes.items) }
        ensures durable { IfOk result (λ disk. Only bytes.items (MayLeave (now_of disk))) }
    {
        let synced = bytes.to_vec(alloc)?;
        let calls = Vec::with_capacity(alloc, room / 32)?;
        let pool = Vec::with_capacity(alloc, room)?;
        Ok(MemoryDisk {
            first: Snapshot::of(&bytes),
            synced,
            newest: bytes,
            calls,
            pool,
            pending_from: 0,
            pick,
            room,
            whole: room,
            fail_writes,
            fail_reads,
            passed: Count::new(),
            reads: Count::new(),
            faults: Count::new(),
            restarts: Count::new(),
        })
    }

    /// Forgets the record where nothing is pending: the disk begins anew with its bytes.
    pub fn forget(&mut self) -> bool
        ensures pending { IsTrue result ↔ ((now_of self.old).pending ≡ []) }
        // Its room is whole again, and nothing else of it changes.
        ensures anew { IsTrue result → self.new ≡ begun_anew self.old }
        ensures kept { IsFalse result → self.new ≡ self.old }
        ensures same { (now_of self.new).newest ≡ (now_of self.old).newest }
        ensures only { IsTrue result → Only (now_of self.old).newest (MayLeave (now_of self.old)) }
    {
        if self.pending_from < self.calls.len() {
            return false;
        }
        self.first = Snapshot::of(&self.newest);
        self.calls.clear();
        self.pool.clear();
        self.pending_from = 0;
        self.room = self.whole;
        true
    }

    /// How many changes the record has.
    pub fn told(&self) -> usize
        ensures { result ≡ changes_of self.now }
    {
        self.calls.len()
    }

    /// The change of that number: of a write its offset and bytes, and nothing of a sync or a restart.
    pub fn told_write(&self, k: usize) -> Option<(usize, &[u8])>
        requires { k < length self.now.changes }
        ensures { MatchOption result ((slice_index_or self.now.changes k Sync ≡ Sync) ⊎ (slice_index_or self.now.changes k Sync ≡ Restart)) (λ w. slice_index_or self.now.changes k Sync ≡ Write w.0 w.1.now) }
    {
        match self.calls[k] {
            Call::Wrote { at, from, len } => Some((at, &self.pool[from..from + len])),
            Call::Synced | Call::Restarted => None,
        }
    }

    /// The newest bytes: what a read gives.
    pub fn contents(&self) -> &[u8]
        ensures { result.now ≡ (now_of self.now).newest }
    {
        &self.newest
    }

    // Writes, and keeps it in the record, which has room for it.
    fn record_write(&mut self, at: usize, piece: &[u8])
        requires inside { at + length piece.now ≤ length (now_of self.old).newest }
        requires room { cost (length piece.now) ≤ self.old.room }
        ensures { self.new ≡ with_write self.old at piece.now }
    {
        let len = piece.len();
        let from = self.pool.len();
        write_range(&mut self.newest, at, piece);
        append(&mut self.pool, piece);
        self.calls.push_reserved(Call::Wrote { at, from, len });
        self.room -= ENTRIES + len;
    }

    // Where something is pending, the entry in the record has its room since the write.
    fn settle_sync(&mut self)
        ensures { self.new ≡ settled self.old Sync }
    {
        if self.pending_from == self.calls.len() {
            return;
        }
        let pending = &self.calls[self.pending_from..];
        copy_ranges(&mut self.synced, &self.newest, pending);
        self.calls.push_reserved(Call::Synced);
        self.pending_from = self.calls.len();
    }

    // Likewise.
    fn settle_restart(&mut self)
        ensures { self.new ≡ settled self.old Restart }
    {
        if self.pending_from == self.calls.len() {
            return;
        }
        let pending = &self.calls[self.pending_from..];
        settle_picked(self.pick, &mut self.newest, &mut self.synced, pending);
        self.calls.push_reserved(Call::Restarted);
        self.pending_from = self.calls.len();
    }

    fn write_at(&mut self, at: usize, piece: &[u8]) -> Result<(), DiskError>
        requires { at + length piece.now ≤ length (now_of self.old).newest }
        ensures exact { self.new ≡ after_write self.old at piece.now }
        ensures result { result ≡ answer (write_fails self.old (length piece.now)) }
    {
        self.passed.raise();
        if self.fail_writes.contains(&self.passed.get()) || !self.has_room(piece.len()) {
            self.faults.raise();
            return Err(DiskError::Failed);
        }
        self.record_write(at, piece);
        Ok(())
    }

    fn has_room(&self, len: usize) -> bool
        ensures { IsTrue result ↔ (cost len ≤ self.now.room) }
    {
        self.room >= ENTRIES && self.room - ENTRIES >= len
    }

    fn read_at(&mut self, at: usize, into: &mut [u8]) -> Result<(), DiskError>
        requires { at + length into.old ≤ length (now_of self.old).newest }
        ensures exact { self.new ≡ after_read self.old }
        ensures result { result ≡ answer (read_fails self.old) }
        ensures read { OnOk result (into.new ≡ part (now_of self.old).newest at (length into.old)) }
    {
        self.reads.raise();
        if self.fail_reads.contains(&self.reads.get()) {
            self.faults.raise();
            return Err(DiskError::Failed);
        }
        into.copy_from_slice(&self.newest[at..at + into.len()]);
        Ok(())
    }

    fn sync_all(&mut self) -> Result<(), DiskError>
        ensures exact { self.new ≡ after_sync self.old }
        ensures result { result ≡ answer (sync_fails self.old) }
    {
        self.passed.raise();
        if self.fail_writes.contains(&self.passed.get()) {
            self.faults.raise();
            return Err(DiskError::Failed);
        }
        self.settle_sync();
        Ok(())
    }
}

impl Disk for MemoryDisk {
    ghost use Rattle.std.specs.Prelude.{◌≡◌, length, true, refl, IsTrue, OnOk};
    ghost use Rattle.disk_model.specs.Disk.{overwrite, part, Torn, WidensBy, Narrows, Only, Elapses};
    ghost use Rattle.disk_model.specs.Memory.{MayLeave, MightHaveLeft, changes_of, now_of, left_by, answer, read_fails, write_fails, sync_fails, after_read, after_write, after_sync, after_restart};
    ghost use Rattle.disk_model.specs.MemoryLaws.{counts_now, only_now, reads_an_image};
    ghost use Rattle.disk_model.specs.declared.memory.Pick.{Pick};

    ghost tells = { true };

    ghost extent = { λ disk. length (now_of disk).newest };

    ghost bytes = { λ disk. (now_of disk).newest };

    ghost may_leave = { λ disk. MayLeave (now_of disk) };

    ghost moment = { changes_of };

    ghost left_since = { MightHaveLeft };

    ghost faults = { λ disk. disk.faults };

    ghost stops = { λ disk. 0 };

    ghost passed = { λ disk. disk.passed };

    ghost restarts = { λ disk. disk.restarts };

    // How a restart picks.
    ghost Origin = { Pick };

    ghost origin = { λ disk. disk.pick };

    fn size(&self) -> u64 {
        self.newest.len() as u64
    }

    /// It fails exactly if its number is listed.
    fn read(&mut self, at: u64, into: &mut [u8]) -> Result<(), DiskError>
        requires { at + length into.old ≤ length (now_of self.old).newest }
        ensures result { result ≡ answer (read_fails self.old) }
        ensures exact { self.new ≡ after_read self.old }
        ensures read { OnOk result (into.new ≡ part (now_of self.old).newest at (length into.old)) }
    {
        self.read_at(at as usize, into)
    }

    /// It fails exactly if its number is listed, or the record has no room for it.
    fn write(&mut self, at: u64, piece: &[u8]) -> Result<(), DiskError>
        requires { at + length piece.now ≤ length (now_of self.old).newest }
        ensures result { result ≡ answer (write_fails self.old (length piece.now)) }
        ensures exact { self.new ≡ after_write self.old at piece.now }
        ensures written { OnOk result ((now_of self.new).newest ≡ overwrite (now_of self.old).newest at piece.now) }
        ensures crash { WidensBy (Torn at (length piece.now)) (MayLeave (now_of self.old)) (MayLeave (now_of self.new)) }
        ensures time { Elapses (changes_of self.old) (changes_of self.new) (MightHaveLeft self.old) (MightHaveLeft self.new) (MayLeave (now_of self.new)) }
        ensures extent { length (now_of self.new).newest ≡ length (now_of self.old).newest }
    {
        self.write_at(at as usize, piece)
    }

    /// It fails exactly if its number is listed.
    fn sync(&mut self) -> Result<(), DiskError>
        ensures result { result ≡ answer (sync_fails self.old) }
        ensures exact { self.new ≡ after_sync self.old }
        ensures durable { OnOk result (Only (now_of self.old).newest (MayLeave (now_of self.new))) }
        ensures bytes { (now_of self.new).newest ≡ (now_of self.old).newest }
        ensures crash { Narrows (MayLeave (now_of self.old)) (MayLeave (now_of self.new)) }
        ensures time { Elapses (changes_of self.old) (changes_of self.new) (MightHaveLeft self.old) (MightHaveLeft self.new) (MayLeave (now_of self.new)) }
    {
        self.sync_all()
    }

    /// Leaves what the pick says wherever something was written since the last sync or restart.
    fn restart(&mut self)
        ensures exact { self.new ≡ after_restart self.old }
        ensures picked { (now_of self.new).newest ≡ left_by self.old.pick (now_of self.old) }
        ensures left { MayLeave (now_of self.old) (now_of self.new).newest }
        ensures durable { Only (now_of self.new).newest (MayLeave (now_of self.new)) }
        ensures time { Elapses (changes_of self.old) (changes_of self.new) (MightHaveLeft self.old) (MightHaveLeft self.new) (MayLeave (now_of self.new)) }
        ensures extent { length (now_of self.new).newest ≡ length (now_of self.old).newest }
    {
        self.restarts.raise();
        self.settle_restart();
    }

    ghost counts_now = { λ tells. counts_now };

    ghost only_now = { λ tells. only_now };

    ghost reads_an_image = { λ tells. reads_an_image };

    ghost same_size = { λ tells disk image leaves. leaves.size };
}
