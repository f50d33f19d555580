//! A disk in memory whose record is what a host is told.
ghost use Rattle.std.specs.Prelude.{◌≡◌, ◌⊎◌, ℕ, ◌<◌, ◌≤◌, ◌↔◌, [], List, length, slice_index_or, slice_index, IfOk, IsTrue, IsFalse};
ghost use Rattle.disk_model.specs.Memory.{Memory, Write, Sync, MightHaveLeft, changes_of, now_of, begun_anew};
ghost use Rattle.heap_embed.specs.Told.{bytes_told, change_answer, word_of};
ghost use Rattle.disk_model.specs.declared.memory.Pick.TheVariants.{Newest};
ghost use Rattle.image_plan.specs.Super.{IsSuper};
ghost use Rattle.heap_embed.specs.Formats.{WasFormatted};
ghost use Rattle.heap_embed.specs.Host.{HostMayLeave, begins_with};

use crate::answer::Answer;
use disk_model::{Disk, MemoryDisk, Pick};
use heap_core::Heap;
use image_plan::Super;
use std::alloc::{AllocError, Global};

/// What the record has room for, besides an image that is told twice.
const ROOM: usize = 1_048_576;

/// A disk in memory whose record is what a host is told: a restart of it would be a sync.
#[derive(Drop)]
pub struct HostDisk {
    pub disk: MemoryDisk,
    ghost picks: { disk.pick ≡ Newest },
}

impl HostDisk {
    /// A disk of these bytes, which are on the host's disk, with nothing told.
    pub fn of(alloc: Global, bytes: Vec<u8>) -> Result<HostDisk, AllocError>
        ensures { IfOk result (λ made. begins_with bytes.items made.disk) }
    {
        let room = bytes.len().saturating_mul(2).saturating_add(ROOM);
        let none = Vec::new(alloc);
        let disk = MemoryDisk::of(alloc, bytes, Pick::Newest, room, none, Vec::new(alloc))?;
        Ok(HostDisk { disk })
    }

    /// Makes an empty heap on it.
    pub fn format(self, of: &Super) -> (Answer, HostDisk)
        requires { IsSuper of.now }
        ensures { WasFormatted ⟦<MemoryDisk as Disk>⟧ of.now self.disk result.0 result.1.disk }
    {
        match Heap::format(self.disk, of.pages, of.log_bytes, of.first) {
            Ok(disk) => (Answer::Done, HostDisk { disk }),
            Err((e, disk)) => (Answer::from(e), HostDisk { disk }),
        }
    }

    /// Forgets what was told, where nothing is pending.
    pub fn forget(&mut self) -> bool
        ensures pending { IsTrue result ↔ ((now_of self.old.disk).pending ≡ []) }
        ensures anew { IsTrue result → self.new.disk ≡ begun_anew self.old.disk }
        ensures kept { IsFalse result → self.new ≡ self.old }
    {
        self.disk.forget()
    }
}

/// The file of a host that makes the told changes in their order, one at a time, and begins none after one that failed: where it has made `k` of
/// them, `done` of them before some moment, a crash leaves in it what the disk that told might have left since that moment.
pub fn host_lags()
    ensures { (disk : Memory) → disk.pick ≡ Newest → (done k : ℕ) (image : List ℕ) → done ≤ k → k ≤ changes_of disk → HostMayLeave disk.first disk.changes k image → MightHaveLeft disk done image }
{}

/// What change `k` is.
pub fn item(disk: &MemoryDisk, k: u64) -> Answer
    ensures told { k < changes_of disk.now → result ≡ change_answer (slice_index_or disk.now.changes k Sync) }
    ensures none { changes_of disk.now ≤ k → result ≡ Answer.NoItem }
{
    if k >= disk.told() as u64 {
        return Answer::NoItem;
    }
    match disk.told_write(k as usize) {
        Some((at, bytes)) => Answer::Write {
            at: at as u64,
            length: bytes.len() as u64,
        },
        None => Answer::Sync,
    }
}

/// Eight bytes of what change `k` writes, from its byte `from` on, the lowest first. Past its end, of a sync, and where there is no such change they are zeros.
pub fn word(disk: &MemoryDisk, k: u64, from: u64) -> u64
    ensures { result ≡ word_of (bytes_told (slice_index_or disk.now.changes k Sync)) from }
{
    word_at(written(disk, k), from)
}

/// What change `k` writes.
fn written(disk: &MemoryDisk, k: u64) -> &[u8]
    ensures { result.now ≡ bytes_told (slice_index_or disk.now.changes k Sync) }
{
    if k >= disk.told() as u64 {
        return &[];
    }
    match disk.told_write(k as usize) {
        Some((_, bytes)) => bytes,
        None => &[],
    }
}

/// Eight bytes from a place on. Past the end they are zeros.
fn word_at(bytes: &[u8], from: u64) -> u64
    ensures { result ≡ word_of bytes.now from }
{
    if from >= bytes.len() as u64 {
        return 0;
    }
    let from = from as usize;
    u64::from_le_bytes([
        byte_at(bytes, from),
        byte_at(bytes, from + 1),
        byte_at(bytes, from + 2),
        byte_at(bytes, from + 3),
        byte_at(bytes, from + 4),
        byte_at(bytes, from + 5),
        byte_at(bytes, from + 6),
        byte_at(bytes, from + 7),
    ])
}

fn byte_at(bytes: &[u8], i: usize) -> u8
    ensures { result ≡ slice_index bytes.now i }
{
    match bytes.get(i) {
        Some(byte) => *byte,
        None => 0,
    }
}
